//! The numbers of a text.
ghost use Rattle.std.specs.Prelude.{◌≡◌, ◌^◌, ◌-◌, min};
ghost use Rattle.dps_names.specs.Processes.{number_of};

use dps_syntax::Leaf;

/// The value of a number, or 2^32 - 1 where it is larger.
#[tactic(auto, using(crate::proofs::Numbers::for_numbers))]
pub(crate) fn number_of(leaf: &Leaf) -> u32
    ensures { result ≡ min (number_of leaf.now) (2 ^ 32 - 1) }
{
    let mut value: u32 = 0;
    for byte in leaf.text.as_bytes() {
        value = value
            .saturating_mul(10)
            .saturating_add(u32::from(byte.saturating_sub(b'0')));
    }
    value
}

//! Configurations with trees put for variables.
ghost use Rattle.std.specs.Prelude.{◌≡◌, ◌++◌, All, Contains, map, ℕ, IfOk};
ghost use Rattle.std.specs.List.{AllZip};
ghost use Rattle.dps_terms.specs.Bindings.{image};
ghost use Rattle.dps_terms.specs.Replace.{variables_to};
ghost use Rattle.dps_process.specs.Process.{Process, replace_in};
ghost use Rattle.dps_process.specs.Binders.{CapturesNone};
ghost use Rattle.dps_node.specs.Node.{Node, SymbolicConfig};
ghost use Rattle.dps_node.specs.Splits.{BindsNoneOf, HasOlderEntries, IsConfigUnder};
ghost use Rattle.dps_renewal.specs.Putting.{PutsNothing};
ghost use Rattle.dps_node.specs.Code.{config_of};

use crate::SymConfig;
use crate::replaced::trees_under;
use crate::valuation::{put_values, values_under};
use dps_process::Process;
use dps_renewal::Renewal;
use dps_terms::{NoMemory, Subst};
use std::alloc::Global;

/// The configurations with what is put for their variables.
pub(crate) fn configs_under(
    alloc: Global,
    configs: &[SymConfig],
    renewal: &Renewal,
) -> Result<Vec<SymConfig>, NoMemory>
    requires older { All (λ c. HasOlderEntries (image renewal.now.by) c.values) (map config_of configs.now) }
    requires apart { All (BindsNoneOf (image renewal.now.by)) (map config_of configs.now) }
    requires only { PutsNothing (renewal.now.own.items ++ renewal.now.fresh.keys) renewal.now.by }
    ensures { (node : Node) → IfOk result (λ v. AllZip (IsConfigUnder node (image renewal.now.by)) (map config_of configs.now) (map config_of v.items)) }
{
    let mut made = Vec::with_capacity(alloc, configs.len())?;
    for config in configs {
        let one = config_under(alloc, config, renewal)?;
        made.push(one)?;
    }
    Ok(made)
}

fn config_under(alloc: Global, config: &SymConfig, renewal: &Renewal) -> Result<SymConfig, NoMemory>
    requires older { HasOlderEntries (image renewal.now.by) config.now.values.items }
    requires apart { BindsNoneOf (image renewal.now.by) (config_of config.now) }
    requires only { PutsNothing (renewal.now.own.items ++ renewal.now.fresh.keys) renewal.now.by }
    ensures { (node : Node) → IfOk result (λ d. IsConfigUnder node (image renewal.now.by) (config_of config.now) (config_of d)) }
{
    let values = values_under(alloc, &config.values, &renewal.by)?;
    let mut valued = Subst::empty(alloc);
    put_values(alloc, &mut valued, &renewal.own, &renewal.by, &values)?;
    put_values(
        alloc,
        &mut valued,
        renewal.fresh.as_slice(),
        &renewal.by,
        &values,
    )?;
    let frame = trees_under(alloc, &config.frame, &valued)?;
    let parts = parts_under(alloc, &config.parts, &valued)?;
    Ok(SymConfig {
        side: config.side,
        parts,
        frame,
        values,
        mixed: config.mixed,
    })
}

/// The parts with what is put for their free variables.
fn parts_under(alloc: Global, parts: &[Process], by: &Subst) -> Result<Vec<Process>, NoMemory>
    requires { (p : Process) → Contains parts.now p → CapturesNone by.now p }
    ensures { IfOk result (λ v. v.items ≡ map (replace_in (variables_to (image by.now))) parts.now) }
{
    let mut made = Vec::with_capacity(alloc, parts.len())?;
    for part in parts {
        let one = part.subst(alloc, by)?;
        made.push(one)?;
    }
    Ok(made)
}

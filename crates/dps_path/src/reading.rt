ghost use Rattle.std.specs.Prelude.{◌≡◌, List, ℕ, IfOk, IfSome, Some, [], ◌∷◌, ◌++◌, option_map};
ghost use Rattle.dps_path.specs.Text.{path_text, IsPath};
ghost use Rattle.dps_path.specs.Scanning.{scanned, longer};

use crate::path::{NoMemory, Path};
use std::alloc::Global;

/// The path with this text. `None` where the bytes are no path's text.
pub fn read_path(alloc: Global, bytes: &[u8]) -> Result<Option<Path>, NoMemory>
    ensures found { IfOk result (λ path. IfSome path (λ p. path_text p ≡ bytes.now)) }
    ensures only { IfOk result (λ path. (p : List ℕ) → IsPath p → path_text p ≡ bytes.now → path ≡ Some p) }
{
    let Some(path) = path_like(alloc, bytes)? else {
        return Ok(None);
    };
    let text = path.text(alloc)?;
    if text.as_bytes() == bytes {
        Ok(Some(path))
    } else {
        Ok(None)
    }
}

/// The only path that may have this text.
fn path_like(alloc: Global, bytes: &[u8]) -> Result<Option<Path>, NoMemory>
    ensures { IfOk result (λ path. (p : List ℕ) → IsPath p → path_text p ≡ bytes.now → path ≡ Some p) }
{
    let Some((first, rest)) = bytes.split_first() else {
        return Ok(None);
    };
    if *first != b'/' {
        return Ok(None);
    }
    if rest.is_empty() {
        return Ok(Some(Path::root(alloc)));
    }
    let path = path_of_numbers(alloc, rest)?;
    Ok(path)
}

/// The path of the numbers that these bytes are, with `/` between them.
fn path_of_numbers(alloc: Global, bytes: &[u8]) -> Result<Option<Path>, NoMemory>
    ensures { IfOk result (λ path. path ≡ scanned [] (Some 0) bytes.now) }
{
    let mut numbers = Vec::new(alloc);
    let mut number: u32 = 0;
    for byte in bytes {
        if *byte == b'/' {
            numbers.push(number)?;
            number = 0;
        } else {
            let Some(next) = longer(number, *byte) else {
                return Ok(None);
            };
            number = next;
        }
    }
    numbers.push(number)?;
    Ok(Some(Path::from_numbers(numbers)))
}

/// The number with one more digit.
fn longer(number: u32, byte: u8) -> Option<u32>
    ensures { result ≡ longer number byte }
{
    if byte < b'0' {
        return None;
    }
    if byte > b'9' {
        return None;
    }
    let next = u64::from(number) * 10 + u64::from(byte - b'0');
    if next > u64::from(u32::MAX) {
        return None;
    }
    Some(next as u32)
}

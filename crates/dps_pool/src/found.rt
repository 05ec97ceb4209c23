use dps_branch::StopKind;
use dps_path::Path;

/// What is found in a tree.
#[derive(Debug, Drop)]
pub enum Found {
    /// The tree stops nowhere.
    None,
    /// The first stop in the order of paths.
    Stop { path: Path, kind: StopKind },
}

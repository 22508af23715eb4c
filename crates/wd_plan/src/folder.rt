ghost use Rattle.std.specs.Prelude.{◌≡◌, take, length, ◌≤◌};
ghost use Rattle.wd_plan.specs.Folder.{folder, IsFolderLen};

/// The front of a path up to and with its last `/`, and nothing where it has none.
#[tactic(auto, using(crate::proofs::FolderSteps::folder_boundary))]
pub fn folder_of(path: &str) -> &str
    ensures { result.now ≡ folder path.now }
{
    &path[..folder_len(path.as_bytes())]
}

#[tactic(auto, using(crate::proofs::FolderSteps::folder_at, crate::proofs::FolderSteps::folder_none, crate::proofs::FolderSteps::slash_less, crate::proofs::FolderSteps::no_slash_behind))]
fn folder_len(path: &[u8]) -> usize
    ensures within { result ≤ length path.now }
    ensures folder { take result path.now ≡ folder path.now }
    ensures ends { IsFolderLen path.now result }
{
    let mut count = path.len();
    while count > 0 {
        if path[count - 1] == b'/' {
            return count;
        }
        count -= 1;
    }
    0
}

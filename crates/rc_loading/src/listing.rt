//! The configurations of a folder.
ghost use Rattle.std.specs.Prelude.{◌≡◌, List, ℕ, filter, All, IsTrue, IsSome, IfOk, IfSome, IsPermutation, IsSorted};
ghost use Rattle.std.specs.Ordering.{nat_cmp};
ghost use Rattle.std.specs.Cmp.Lexicographic.{slice_cmp};
ghost use Rattle.rc_outside.specs.Causes.{HasCause};
ghost use Rattle.rc_outside.specs.Folder.{is_config, bytes_at, names_in};
ghost use Rattle.rc_loading.specs.Net.{AreConfigs, HasOneListing};

use rc_base::FileName;
use rc_outside::{Folder, Names, SourceError};
use std::alloc::{AllocError, Global};

/// A folder has one listing in byte order, so the answer to its files is one, whatever the order in which it lists them.
pub fn one_listing()
    ensures { HasOneListing }
{}

fn is_config_name(name: &FileName) -> bool
    ensures { result ≡ is_config name.now }
{
    name.as_str().as_bytes().ends_with(b".cfg".as_slice())
}

fn sorted(names: Vec<FileName>) -> Result<Vec<FileName>, AllocError>
    ensures same { IfOk result (λ sorted. IsPermutation names.items sorted.items) }
    ensures in_order { IfOk result (λ sorted. IsSorted (slice_cmp nat_cmp) sorted.items) }
{
    let mut names = names;
    names.sort()?;
    Ok(names)
}

fn configs_of(alloc: Global, names: Vec<FileName>) -> Result<Vec<FileName>, AllocError>
    ensures { IfOk result (λ configs. configs.items ≡ filter is_config names.items) }
{
    names
        .into_iter()
        .filter(|name| is_config_name(name))
        .collect(alloc)
}

fn in_order(alloc: Global, names: Names) -> Result<Vec<FileName>, AllocError>
    ensures { IfOk result (λ configs. AreConfigs names configs.items) }
{
    let names = sorted(names.into_vec())?;
    configs_of(alloc, names)
}

/// The names of the configurations in a folder, in byte order.
pub(crate) fn config_names<F: Folder>(
    alloc: Global,
    dir: &str,
    folder: &mut F,
) -> Result<Vec<FileName>, SourceError>
    requires { IsTrue (F.allows folder.old dir.now) }
    ensures names { IfOk result (λ configs. (names : List (List ℕ)) × AreConfigs names configs.items
        × IfSome (F.told folder.old) (λ files. IsPermutation (names_in dir.now files) names)) }
    ensures configs { IfOk result (λ configs. All (λ n. IsTrue (is_config n)) configs.items) }
    ensures there { IfOk result (λ configs. IfSome (F.told folder.old) (λ files. All (λ n. IsSome (bytes_at dir.now n files)) configs.items)) }
    ensures same_files { F.told folder.new ≡ F.told folder.old }
    ensures same_allowed { F.allows folder.new ≡ F.allows folder.old }
    ensures cause { HasCause (F.faults folder.old) (F.faults folder.new) result }
{
    let names = match folder.names(alloc, dir) {
        Ok(names) => names,
        Err(error) => return Err(error),
    };
    match in_order(alloc, names) {
        Ok(configs) => Ok(configs),
        Err(_) => Err(SourceError::Memory),
    }
}

//! The models of the configurations of a folder, and their network.
ghost use Rattle.std.specs.Prelude.{◌≡◌, ◌≢◌, ◌≤◌, ◌∷◌, [], All, List, ℕ, Ok, Err, IsTrue, IsSome, IfOk, IfErr, IfSome, IfNone, OnErr, length};
ghost use Rattle.rc_outside.specs.Causes.{HasCause};
ghost use Rattle.rc_outside.specs.Folder.{is_config, bytes_at};
ghost use Rattle.rc_config.specs.Lawful.{IsLawful, IsLawfulFile};
ghost use Rattle.rc_loading.specs.Causes.{network_or_refusal, refusal_of};
ghost use Rattle.rc_loading.specs.Net.{bytes_in, HasOneNet, IsNet};
ghost use Rattle.rc_network.specs.Files.{model_of, models_of, too_many, with_model, IsNetOf};

use crate::listing::config_names;
use rc_base::{FileName, Items};
use rc_config::{Network, RouterText};
use rc_grammar::{FileRefusal, ReadError, read_file};
use rc_network::{BuildError, NetCause, NetRefusal, build};
use rc_outside::{Folder, SourceError};
use std::alloc::{AllocError, Global};
use std::collections::VecDeque;

/// The most bytes of a file.
const MOST_BYTES: usize = 1_048_576;

/// The most configurations of a folder.
const MOST_FILES: usize = 512;

fn in_file(alloc: Global, name: &str, line: u64, cause: NetCause) -> Result<NetRefusal, AllocError>
    ensures { IfOk result (λ refusal. refusal ≡ NetRefusal.InFile name.now line cause) }
{
    let file = FileName::new(String::from_str(alloc, name)?);
    Ok(NetRefusal::InFile(file, line, cause))
}

fn refused(
    alloc: Global,
    name: &str,
    line: u64,
    cause: NetCause,
) -> Result<Result<RouterText, NetRefusal>, AllocError>
    ensures { IfOk result (λ said. said ≡ Err (NetRefusal.InFile name.now line cause)) }
{
    match in_file(alloc, name, line, cause) {
        Ok(refusal) => Ok(Err(refusal)),
        Err(error) => Err(error),
    }
}

/// The refusal of a file that has no model, or `None` where memory ran out.
fn refusal_of(error: ReadError) -> Option<FileRefusal>
    ensures refusal { result ≡ refusal_of error }
    ensures told { IfSome result (λ refusal. error ≡ ReadError.Refused refusal) }
{
    match error {
        ReadError::Refused(refusal) => Some(refusal),
        ReadError::Memory => None,
    }
}

/// The model of a file's bytes, or its first refusal.
#[tactic(auto, unfolding(rc_network::specs::Files::model_by))]
fn parsed(
    alloc: Global,
    name: &str,
    bytes: &[u8],
) -> Result<Result<RouterText, NetRefusal>, AllocError>
    ensures model { IfOk result (λ said. said ≡ model_of name.now bytes.now) }
    ensures lawful { IfOk result (λ said. IfOk said IsLawfulFile) }
{
    if bytes.len() > MOST_BYTES {
        return refused(alloc, name, 0, NetCause::FileTooLong);
    }
    match read_file(alloc, bytes) {
        Ok(model) => Ok(Ok(model)),
        Err(error) => {
            let Some(refusal) = refusal_of(error) else {
                return Err(AllocError);
            };
            refused(alloc, name, refusal.line, NetCause::File(refusal.cause))
        }
    }
}

fn read_model<F: Folder>(
    alloc: Global,
    dir: &str,
    name: &str,
    folder: &mut F,
) -> Result<Result<RouterText, NetRefusal>, SourceError>
    requires allowed { IsTrue (F.allows folder.old dir.now) }
    requires config { IsTrue (is_config name.now) }
    requires there { IfSome (F.told folder.old) (λ files. IsSome (bytes_at dir.now name.now files)) }
    ensures model { IfOk result (λ said. IfSome (F.told folder.old) (λ files. IfSome (bytes_at dir.now name.now files) (λ bytes. said ≡ model_of name.now bytes))) }
    ensures lawful { IfOk result (λ said. IfOk said IsLawfulFile) }
    ensures same_files { F.told folder.new ≡ F.told folder.old }
    ensures same_allowed { F.allows folder.new ≡ F.allows folder.old }
    ensures cause { HasCause (F.faults folder.old) (F.faults folder.new) result }
{
    let bytes = match folder.read(alloc, dir, name, MOST_BYTES) {
        Ok(bytes) => bytes,
        Err(error) => return Err(error),
    };
    match parsed(alloc, name, bytes.as_slice()) {
        Ok(said) => Ok(said),
        Err(_) => Err(SourceError::Memory),
    }
}

/// The next of the configurations that are left, while none was refused.
fn next_of(
    read: &Result<Items<(FileName, RouterText)>, NetRefusal>,
    left: &mut VecDeque<FileName>,
) -> Option<FileName>
    ensures next { IfSome result (λ name. left.old.items ≡ name ∷ left.new.items) }
    ensures ends { IfNone result (IfOk read.now (λ models. left.old.items ≡ [])) }
{
    match read {
        Ok(_) => left.pop_front(),
        Err(_) => None,
    }
}

/// The models that were read, or the first refusal, and behind them what the next file is said to be.
fn with_model(
    read: Result<Items<(FileName, RouterText)>, NetRefusal>,
    name: FileName,
    said: Result<RouterText, NetRefusal>,
) -> Result<Result<Items<(FileName, RouterText)>, NetRefusal>, AllocError>
    ensures read { IfOk result (λ next. next ≡ with_model read name said) }
    ensures refused { IfErr (with_model read name said) (λ refusal. result ≡ Ok (Err refusal)) }
{
    let mut models = match read {
        Ok(models) => models,
        Err(refusal) => return Ok(Err(refusal)),
    };
    let model = match said {
        Ok(model) => model,
        Err(refusal) => return Ok(Err(refusal)),
    };
    models.push((name, model))?;
    Ok(Ok(models))
}

/// The models of the configurations, in their order, or the first refusal, behind which no file is read.
fn read_models<F: Folder>(
    alloc: Global,
    dir: &str,
    configs: Vec<FileName>,
    folder: &mut F,
) -> Result<Result<Items<(FileName, RouterText)>, NetRefusal>, SourceError>
    requires allowed { IsTrue (F.allows folder.old dir.now) }
    requires configs { All (λ n. IsTrue (is_config n)) configs.items }
    requires there { IfSome (F.told folder.old) (λ files. All (λ n. IsSome (bytes_at dir.now n files)) configs.items) }
    ensures models { IfOk result (λ said. IfSome (F.told folder.old) (λ files. said ≡ models_of (bytes_in dir.now files) configs.items)) }
    ensures lawful { IfOk result (λ said. IfOk said (λ models. All (λ m. IsLawfulFile m.1) models)) }
    ensures few { IfOk result (λ said. IfOk said (λ models. length models ≡ length configs.items)) }
    ensures cause { HasCause (F.faults folder.old) (F.faults folder.new) result }
{
    let mut read = Ok(Items::new(alloc));
    let mut left = VecDeque::from(configs);
    while let Some(name) = next_of(&read, &mut left) {
        let said = match read_model(alloc, dir, name.as_str(), folder) {
            Ok(said) => said,
            Err(error) => return Err(error),
        };
        read = match with_model(read, name, said) {
            Ok(next) => next,
            Err(_) => return Err(SourceError::Memory),
        };
    }
    Ok(read)
}

/// What was built, or the refusal of it, or that memory ran out.
fn network_or_refusal(
    built: Result<Network, BuildError>,
) -> Result<Result<Network, NetRefusal>, SourceError>
    ensures { result ≡ network_or_refusal built }
{
    match built {
        Ok(net) => Ok(Ok(net)),
        Err(BuildError::Refused(refusal)) => Ok(Err(refusal)),
        Err(BuildError::Memory) => Err(SourceError::Memory),
    }
}

/// The network of the models that were read, or the first refusal, which may be that of a file that has none.
fn network_of(
    alloc: Global,
    read: Result<Items<(FileName, RouterText)>, NetRefusal>,
) -> Result<Result<Network, NetRefusal>, SourceError>
    requires few { IfOk read (λ models. length models ≤ 512) }
    requires lawful { IfOk read (λ models. All (λ m. IsLawfulFile m.1) models) }
    ensures net { IfOk result (IsNetOf read) }
    ensures refused { IfErr read (λ refusal. result ≡ Ok (Err refusal)) }
    ensures lawful { IfOk result (λ net. IfOk net IsLawful) }
    ensures never_failed { result ≢ Err SourceError.Failed }
{
    match read {
        Ok(models) => network_or_refusal(build(alloc, models.into_vec())),
        Err(refusal) => Ok(Err(refusal)),
    }
}

/// The refusal of so many configurations, where they are too many.
fn too_many(configs: &[FileName]) -> Option<NetRefusal>
    ensures { result ≡ too_many (length configs.now) }
{
    if configs.len() > MOST_FILES {
        return Some(NetRefusal::TooManyFiles);
    }
    None
}

/// The network of so few configurations, or the first refusal.
fn network_read<F: Folder>(
    alloc: Global,
    dir: &str,
    configs: Vec<FileName>,
    folder: &mut F,
) -> Result<Result<Network, NetRefusal>, SourceError>
    requires allowed { IsTrue (F.allows folder.old dir.now) }
    requires few { length configs.items ≤ 512 }
    requires configs { All (λ n. IsTrue (is_config n)) configs.items }
    requires there { IfSome (F.told folder.old) (λ files. All (λ n. IsSome (bytes_at dir.now n files)) configs.items) }
    ensures net { IfOk result (λ net. IfSome (F.told folder.old) (λ files. IsNetOf (models_of (bytes_in dir.now files) configs.items) net)) }
    ensures lawful { IfOk result (λ net. IfOk net IsLawful) }
    ensures cause { HasCause (F.faults folder.old) (F.faults folder.new) result }
{
    let read = match read_models(alloc, dir, configs, folder) {
        Ok(read) => read,
        Err(error) => return Err(error),
    };
    network_of(alloc, read)
}

/// The network of the configurations of a folder, or the first refusal, where their number has none.
fn network_in<F: Folder>(
    alloc: Global,
    dir: &str,
    configs: Vec<FileName>,
    refusal: Option<NetRefusal>,
    folder: &mut F,
) -> Result<Result<Network, NetRefusal>, SourceError>
    requires allowed { IsTrue (F.allows folder.old dir.now) }
    requires few { IfNone refusal (length configs.items ≤ 512) }
    requires configs { All (λ n. IsTrue (is_config n)) configs.items }
    requires there { IfSome (F.told folder.old) (λ files. All (λ n. IsSome (bytes_at dir.now n files)) configs.items) }
    ensures net { IfNone refusal (IfOk result (λ net. IfSome (F.told folder.old) (λ files. IsNetOf (models_of (bytes_in dir.now files) configs.items) net))) }
    ensures refused { IfSome refusal (λ first. result ≡ Ok (Err first)) }
    ensures lawful { IfOk result (λ net. IfOk net IsLawful) }
    ensures cause { HasCause (F.faults folder.old) (F.faults folder.new) result }
{
    match refusal {
        Some(refusal) => Ok(Err(refusal)),
        None => network_read(alloc, dir, configs, folder),
    }
}

/// The network of the files of a folder, or their first refusal.
pub fn read_network<F: Folder>(
    alloc: Global,
    dir: &str,
    folder: &mut F,
) -> Result<Result<Network, NetRefusal>, SourceError>
    requires { IsTrue (F.allows folder.old dir.now) }
    ensures net { IfOk result (λ net. IfSome (F.told folder.old) (λ files. IsNet dir.now files net)) }
    ensures lawful { IfOk result (λ net. IfOk net IsLawful) }
    ensures cause { HasCause (F.faults folder.old) (F.faults folder.new) result }
{
    let configs = match config_names(alloc, dir, folder) {
        Ok(configs) => configs,
        Err(error) => return Err(error),
    };
    let refusal = too_many(configs.as_slice());
    network_in(alloc, dir, configs, refusal, folder)
}

/// The files of a folder have one network, or one first refusal, in whatever order the folder lists them.
pub fn one_net()
    ensures { HasOneNet }
{}

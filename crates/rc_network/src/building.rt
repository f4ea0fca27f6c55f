//! Models under their host names.
ghost use Rattle.std.specs.Prelude.{◌≡◌, ◌≤◌, All, Err, IfErr, IfOk, IsSome, List, [], None, OnOk, Some, is_some, length};
ghost use Rattle.std.specs.Option.{option_or};
ghost use Rattle.rc_config.specs.Lawful.{IsLawful, IsLawfulFile};
ghost use Rattle.rc_config.specs.Named.{named, with_value};
ghost use Rattle.rc_config.specs.Update.{settled_router};
ghost use Rattle.rc_network.specs.Build.{Model, host_of, undefined_in, HasOneNetwork, IsBuilt};
ghost use Rattle.rc_network.specs.Step.{gathered_of, Adds, GathersAll, IsFinished};
ghost use Rattle.rc_network.specs.Twice.{NamesTheFirstTwice};

use crate::undefined::undefined_line;
use crate::{BuildError, NetCause, NetRefusal};
use rc_base::{FileName, Name};
use rc_commands::settle;
use rc_config::{HostLine, Named, Network, RouterText};
use std::alloc::Global;
use std::collections::VecDeque;

/// The host name of a model that has one, and its line.
fn host_of(model: &RouterText) -> HostLine
    requires { IsSome model.now.host }
    ensures { model.now.host ≡ Some result }
{
    match &model.host {
        Some(host) => *host,
        None => unreachable!(),
    }
}

/// The refusal of a model's first undefined name.
fn undefined_of(file: FileName, model: &RouterText) -> Option<NetRefusal>
    ensures { result ≡ undefined_in (file, model.now) }
{
    match undefined_line(model) {
        Some(line) => Some(NetRefusal::InFile(file, line, NetCause::Undefined)),
        None => None,
    }
}

/// Models under their host names, as far as they have come, and the refusal of the first undefined name among them.
struct Gathered {
    routers: Named<RouterText>,
    undefined: Option<NetRefusal>,
}

/// By a function of its own, so that what holds one drops it by one call.
impl Drop for Gathered {
    fn drop(self) {
        let Gathered {
            routers: _,
            undefined: _,
        } = self;
    }
}

/// Puts a model under its host name, with what holds of each BGP neighbour in the end.
fn put_router(
    routers: &mut Named<RouterText>,
    name: Name,
    mut model: RouterText,
) -> Result<(), BuildError>
    ensures put { OnOk result (routers.new ≡ with_value routers.old name (settled_router model)) }
    ensures memory { IfErr result (λ e. e ≡ BuildError.Memory) }
{
    let alloc = routers.allocator();
    let Ok(()) = settle(&mut model, alloc) else {
        return Err(BuildError::Memory);
    };
    let Ok(_) = routers.insert(name, model) else {
        return Err(BuildError::Memory);
    };
    Ok(())
}

impl Gathered {
    /// No model yet.
    fn new(alloc: Global) -> Gathered
        ensures { result ≡ gathered_of [] }
    {
        Gathered {
            routers: Named::new(alloc),
            undefined: None,
        }
    }

    /// Whether a model of this host name is there.
    fn has(&self, name: &Name) -> bool
        ensures { result ≡ is_some (named self.now.routers name.now) }
    {
        self.routers.get(name).is_some()
    }

    /// Notes the first undefined name of a model, where none is known.
    fn note_undefined(&mut self, file: FileName, model: &RouterText)
        ensures { self.new ≡ record self.old { undefined = option_or self.old.undefined (undefined_in (file, model.now)) } }
    {
        if self.undefined.is_none() {
            self.undefined = undefined_of(file, model);
        }
    }

    /// Puts one more model under its host name.
    fn put_model(&mut self, file: FileName, model: RouterText) -> Result<(), BuildError>
        requires { IsSome model.host }
        ensures adds { (models : List Model) → self.old ≡ gathered_of models → Adds models (file, model) self.new result }
        ensures memory { result ≡ Err BuildError.Memory → named self.old.routers (host_of model) ≡ None }
    {
        let host = host_of(&model);
        if self.has(&host.name) {
            let refusal = NetRefusal::InFile(file, host.line, NetCause::TwiceNamed);
            return Err(BuildError::Refused(refusal));
        }
        self.note_undefined(file, &model);
        put_router(&mut self.routers, host.name, model)
    }

    /// Puts all models under their host names, as they come.
    fn put_models(&mut self, models: Vec<(FileName, RouterText)>) -> Result<(), BuildError>
        requires empty { self.old ≡ gathered_of [] }
        requires hosts { All (λ m. IsSome m.1.host) models.items }
        ensures { GathersAll models.items self.new result }
    {
        let mut left = VecDeque::from(models);
        while let Some((file, model)) = left.pop_front() {
            self.put_model(file, model)?;
        }
        Ok(())
    }

    /// The network of these models, or the refusal of their first undefined name.
    fn finished(self, alloc: Global) -> Result<Network, BuildError>
        ensures finished { IsFinished self result }
        ensures memory { result ≡ Err BuildError.Memory → self.undefined ≡ None }
    {
        let Gathered {
            mut routers,
            undefined,
        } = self;
        if let Some(refusal) = undefined {
            return Err(BuildError::Refused(refusal));
        }
        routers.sort_names();
        let Ok(network) = Network::of(alloc, routers) else {
            return Err(BuildError::Memory);
        };
        Ok(network)
    }
}

/// The network of the models of files, which stand in the byte order of their files' names. It is cut nowhere.
///
/// Each BGP neighbour has what holds of it in the end, by its own lines and those of its peer group; there are no groups any
/// more.
///
/// It errs exactly where a model's host name is that of an earlier one, with the first such file and the line that gives
/// the name; else where a file names what it doesn't define, with the first such file and the least line that does; and where
/// memory runs out.
pub fn build(alloc: Global, models: Vec<(FileName, RouterText)>) -> Result<Network, BuildError>
    requires few { length models.items ≤ 512 }
    requires lawful { All (λ m. IsLawfulFile m.1) models.items }
    ensures built { IsBuilt models.items result }
    ensures lawful { IfOk result IsLawful }
{
    let mut gathered = Gathered::new(alloc);
    match gathered.put_models(models) {
        Ok(()) => gathered.finished(alloc),
        Err(error) => Err(error),
    }
}

/// The models of files have one network.
pub fn one_network()
    ensures { HasOneNetwork }
{}

/// The host name that is named twice is that of the first file whose host name an earlier file has.
pub fn named_twice()
    ensures { NamesTheFirstTwice }
{}

ghost use Rattle.std.specs.Prelude.{◌≡◌};
ghost use Rattle.std.specs.Option.{option_copied, option_map};
ghost use Rattle.wd_config.specs.Configured as spec;
ghost use Rattle.wd_config.specs.Given.{Gives, GivesBy};

use crate::faults::{RefusedKind, Stop, refuse};
use crate::names::Names;
use capnp_text::{Decl, Placed, Value};
use std::alloc::Global;
use wd_base::{Bytes, Seq};

/// The constants and the aliases of a file, each with the place of its declaration.
#[derive(Drop)]
pub struct Tables {
    pub constants: Names,
    pub aliases: Names,
}

/// The constant that is read: the place of its declaration, its name and its value.
#[derive(Clone, Copy)]
pub struct Root<'a> {
    pub at: usize,
    pub label: &'a Placed,
    pub value: &'a Value,
}

/// Adds a declaration, which stands at place `at` of the file.
fn declare(alloc: Global, tables: &mut Tables, decl: &Decl, at: usize) -> Result<(), Stop>
    ensures { GivesBy (λ _. tables.new) (spec.declared_at at tables.old decl.now) result }
{
    match decl {
        Decl::Const { name, .. } => {
            let bytes = name.bytes.as_slice();
            if tables.constants.has(bytes) {
                return refuse(alloc, RefusedKind::DoubleName, name.place, bytes);
            }
            tables.constants.put(alloc, bytes, at)?;
            Ok(())
        }
        Decl::Using { name, .. } => {
            let bytes = name.bytes.as_slice();
            if tables.aliases.has(bytes) {
                return refuse(alloc, RefusedKind::DoubleName, name.place, bytes);
            }
            tables.aliases.put(alloc, bytes, at)?;
            Ok(())
        }
        Decl::Id(_) => Ok(()),
    }
}

/// The constants and the aliases of a file. No two constants have one name, and no two aliases.
#[tactic(auto, unfolding(crate::specs::Configured::declared))]
pub fn declared(alloc: Global, file: &[Decl]) -> Result<Tables, Stop>
    ensures { Gives (spec.declared 0 spec.no_tables file.now) result }
{
    let mut tables = Tables {
        constants: Names::new(alloc),
        aliases: Names::new(alloc),
    };
    let mut rest = file;
    let mut at = 0;
    while let Some((decl, more)) = rest.split_first() {
        declare(alloc, &mut tables, decl, at)?;
        at += 1;
        rest = more;
    }
    Ok(tables)
}

fn check_import(alloc: Global, decl: &Decl) -> Result<(), Stop>
    ensures { Gives (spec.import_of decl.now) result }
{
    match decl {
        Decl::Using { path, .. } => {
            if path.bytes.as_slice() == b"/workerd/workerd.capnp".as_slice() {
                return Ok(());
            }
            refuse(alloc, RefusedKind::LeftOut, path.place, b"import")
        }
        Decl::Const { .. } | Decl::Id(_) => Ok(()),
    }
}

/// One file alone may be imported.
#[tactic(auto, unfolding(crate::specs::Configured::imports))]
pub fn check_imports(alloc: Global, file: &[Decl]) -> Result<(), Stop>
    ensures { Gives (spec.imports file.now) result }
{
    let mut rest = file;
    while let Some((decl, more)) = rest.split_first() {
        check_import(alloc, decl)?;
        rest = more;
    }
    Ok(())
}

fn is_plain(name: &[u8]) -> bool
    ensures { result ≡ spec.is_plain name.now }
{
    name == b"Text".as_slice() || name == b"Data".as_slice()
}

fn is_struct(name: &[u8]) -> bool
    ensures { result ≡ spec.is_struct name.now }
{
    name == b"Config".as_slice()
        || name == b"Service".as_slice()
        || name == b"Worker".as_slice()
        || name == b"Socket".as_slice()
        || name == b"Network".as_slice()
        || name == b"ExternalServer".as_slice()
        || name == b"DiskDirectory".as_slice()
}

/// `Text`, `Data`, or an alias, `.` and the name of a struct.
fn is_type(aliases: &Names, parts: &[Placed]) -> bool
    ensures { result ≡ spec.is_type aliases.now parts.now }
{
    match parts {
        [name] => is_plain(name.bytes.as_slice()),
        [alias, name] => { aliases.has(alias.bytes.as_slice()) && is_struct(name.bytes.as_slice()) }
        _other => false,
    }
}

fn type_place(parts: &[Placed]) -> usize
    ensures { result ≡ spec.type_place parts.now }
{
    match parts.split_first() {
        Some((first, _more)) => first.place,
        None => 0,
    }
}

fn check_type(alloc: Global, aliases: &Names, decl: &Decl) -> Result<(), Stop>
    ensures { Gives (spec.type_of aliases.now decl.now) result }
{
    match decl {
        Decl::Const { type_, .. } => {
            let parts = type_.as_slice();
            if is_type(aliases, parts) {
                return Ok(());
            }
            refuse(alloc, RefusedKind::LeftOut, type_place(parts), b"type")
        }
        Decl::Using { .. } | Decl::Id(_) => Ok(()),
    }
}

/// Each constant has a type that is known.
#[tactic(auto, unfolding(crate::specs::Configured::types))]
pub fn check_types(alloc: Global, aliases: &Names, file: &[Decl]) -> Result<(), Stop>
    ensures { Gives (spec.types aliases.now file.now) result }
{
    let mut rest = file;
    while let Some((decl, more)) = rest.split_first() {
        check_type(alloc, aliases, decl)?;
        rest = more;
    }
    Ok(())
}

fn is_config_type(parts: &[Placed]) -> bool
    ensures { result ≡ spec.is_config_type parts.now }
{
    match parts {
        [_alias, name] => name.bytes.as_slice() == b"Config".as_slice(),
        _other => false,
    }
}

fn config_name(decl: &Decl) -> Option<&Placed>
    ensures { option_copied result ≡ spec.config_name decl.now }
{
    match decl {
        Decl::Const { name, type_, .. } => {
            if is_config_type(type_.as_slice()) {
                Some(name)
            } else {
                None
            }
        }
        Decl::Using { .. } | Decl::Id(_) => None,
    }
}

/// The name of the first configuration, and the declarations behind it.
#[tactic(auto, unfolding(crate::specs::Configured::first_config))]
fn first_config(file: &[Decl]) -> Option<(&Placed, &[Decl])>
    ensures { option_map (λ c. (c.0.now, c.1.now)) result ≡ spec.first_config file.now }
{
    let mut rest = file;
    while let Some((decl, more)) = rest.split_first() {
        if let Some(name) = config_name(decl) {
            return Some((name, more));
        }
        rest = more;
    }
    None
}

/// The name of the one configuration.
fn sole(alloc: Global, file: &[Decl]) -> Result<Bytes, Stop>
    ensures { Gives (spec.sole (spec.first_config file.now)) result }
{
    let Some((name, rest)) = first_config(file) else {
        return refuse(alloc, RefusedKind::NoSuchConst, 0, b"");
    };
    match first_config(rest) {
        Some((other, _rest)) => refuse(
            alloc,
            RefusedKind::SeveralConfigs,
            other.place,
            other.bytes.as_slice(),
        ),
        None => Ok(Seq::copy(alloc, name.bytes.as_slice())?),
    }
}

/// The name of the constant that is read: the one that is given, or that of the one configuration.
pub fn chosen(alloc: Global, name: Option<&str>, file: &[Decl]) -> Result<Bytes, Stop>
    ensures { Gives (spec.chosen (option_map (λ s. s.now) name.entry) file.now) result }
{
    match name {
        Some(name) => Ok(Seq::copy(alloc, name.as_bytes())?),
        None => sole(alloc, file),
    }
}

/// The configuration of that name.
pub fn root_named<'a>(
    alloc: Global,
    constants: &Names,
    file: &'a [Decl],
    name: &[u8],
) -> Result<Root<'a>, Stop>
    ensures { GivesBy spec.root_of (spec.root constants.now file.now name.now) result }
{
    let Some(at) = constants.number_of(name) else {
        return refuse(alloc, RefusedKind::NoSuchConst, 0, name);
    };
    match file.get(at) {
        Some(
            Decl::Const {
                name: label,
                type_,
                value,
            },
        ) => {
            if is_config_type(type_.as_slice()) {
                return Ok(Root { at, label, value });
            }
            refuse(alloc, RefusedKind::NoSuchConst, 0, name)
        }
        Some(Decl::Using { .. }) | Some(Decl::Id(_)) | None => {
            refuse(alloc, RefusedKind::NoSuchConst, 0, name)
        }
    }
}

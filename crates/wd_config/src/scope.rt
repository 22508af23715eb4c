use crate::names::Names;
use capnp_text::Decl;

/// Where values are read: the file, its constants with the places of their declarations, and the
/// folder that relative paths are put behind.
#[derive(Clone, Copy)]
pub struct Scope<'a> {
    pub file: &'a [Decl],
    pub constants: &'a Names,
    pub folder: &'a str,
}

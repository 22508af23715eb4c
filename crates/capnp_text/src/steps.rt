ghost use Rattle.std.specs.Prelude.{◌≡◌, ◌∷◌, ◌++◌, [], nat_lt, length, codes, IfOk};
ghost use Rattle.std.specs.Str.{bytes_eq};
ghost use Rattle.capnp_text.specs.Grammar.{most_open};
ghost use Rattle.capnp_text.specs.Machine as spec;
ghost use Rattle.capnp_text.specs.Steps.{Steps};

use crate::machine::{At, Frame, Head, Refusal, Spot, State, StepEnd};
use crate::token::{Token, TokenKind};
use crate::tree::{Decl, Field, Placed, Value};
use std::alloc::Global;
use wd_base::{Bytes, NoMemory, Seq, Stack};

fn refuse(why: Refusal) -> Result<State, StepEnd>
    ensures { Steps (Err why) result }
{
    Err(StepEnd::Refused(why))
}

fn bad() -> Result<State, StepEnd>
    ensures { Steps spec.bad result }
{
    refuse(Refusal::BadToken)
}

fn to(decls: Seq<Decl>, at: At) -> Result<State, StepEnd>
    ensures { Steps (spec.to decls at) result }
{
    Ok(State { decls, at })
}

fn stay(decls: Seq<Decl>, head: Head, frames: Stack<Frame>, spot: Spot) -> Result<State, StepEnd>
    ensures { Steps (spec.stay decls head frames spot) result }
{
    to(decls, At::In(head, frames, spot))
}

fn with<T: Drop>(list: Seq<T>, item: T) -> Result<Seq<T>, NoMemory>
    ensures { IfOk result (λ longer. longer ≡ list ++ item ∷ []) }
{
    let mut list = list;
    list.push(item)?;
    Ok(list)
}

fn is_word(name: &Bytes, word: &[u8]) -> bool
    ensures { result ≡ bytes_eq name.now word.now }
{
    name.as_slice() == word
}

/// One more bracket may be open.
fn has_room(frames: &Stack<Frame>) -> bool
    ensures { result ≡ nat_lt (length frames.now) most_open }
{
    frames.len() < 32
}

/// The word `embed`, at a place.
fn embed(alloc: Global, place: usize) -> Result<Placed, NoMemory>
    ensures { IfOk result (λ word. word ≡ spec.embed place) }
{
    let bytes = Seq::copy(alloc, b"embed")?;
    Ok(Placed { place, bytes })
}

/// A value begins.
fn begin(
    alloc: Global,
    decls: Seq<Decl>,
    head: Head,
    frames: Stack<Frame>,
    token: Token,
) -> Result<State, StepEnd>
    ensures { Steps (spec.begin most_open decls head frames token.place token.kind) result }
{
    let Token { place, kind } = token;
    let spot = match kind {
        TokenKind::Text(bytes) => Spot::Done(Value::Text(Placed { place, bytes })),
        TokenKind::Data(bytes) => Spot::Done(Value::Data(Placed { place, bytes })),
        TokenKind::Number(bytes) => Spot::Done(Value::Number(Placed { place, bytes })),
        TokenKind::Name(bytes) => {
            if is_word(&bytes, b"embed") {
                Spot::Embed(place)
            } else {
                Spot::Done(Value::Word(Placed { place, bytes }))
            }
        }
        TokenKind::Dot => Spot::Dot(place),
        TokenKind::OpenParen => {
            if !has_room(&frames) {
                return refuse(Refusal::TooDeep);
            }
            Spot::Name(place, Seq::new(alloc))
        }
        TokenKind::OpenBracket => {
            if !has_room(&frames) {
                return refuse(Refusal::TooDeep);
            }
            Spot::Item(place, Seq::new(alloc))
        }
        _other => return bad(),
    };
    stay(decls, head, frames, spot)
}

/// The value of a constant is complete, and a token comes.
fn after_const(
    decls: Seq<Decl>,
    head: Head,
    value: Value,
    kind: TokenKind,
) -> Result<State, StepEnd>
    ensures { Steps (spec.after_const decls head value kind) result }
{
    match kind {
        TokenKind::Semicolon => {
            let Head { name, type_ } = head;
            to(with(decls, Decl::Const { name, type_, value })?, At::Decl)
        }
        _other => bad(),
    }
}

/// An item of a list is complete, and a token comes.
fn after_item(
    decls: Seq<Decl>,
    head: Head,
    frames: Stack<Frame>,
    opened: usize,
    items: Seq<Value>,
    kind: TokenKind,
) -> Result<State, StepEnd>
    ensures { Steps (spec.after_item decls head frames opened items kind) result }
{
    match kind {
        TokenKind::Comma => stay(decls, head, frames, Spot::Item(opened, items)),
        TokenKind::CloseBracket => {
            let list = Value::List(opened, items);
            stay(decls, head, frames, Spot::Done(list))
        }
        _other => bad(),
    }
}

/// A field of a struct is complete, and a token comes.
fn after_field(
    decls: Seq<Decl>,
    head: Head,
    frames: Stack<Frame>,
    opened: usize,
    fields: Seq<Field>,
    kind: TokenKind,
) -> Result<State, StepEnd>
    ensures { Steps (spec.after_field decls head frames opened fields kind) result }
{
    match kind {
        TokenKind::Comma => stay(decls, head, frames, Spot::Name(opened, fields)),
        TokenKind::CloseParen => {
            let value = Value::Struct(opened, fields);
            stay(decls, head, frames, Spot::Done(value))
        }
        _other => bad(),
    }
}

/// A value is complete, and a token comes.
fn after(
    decls: Seq<Decl>,
    head: Head,
    frames: Stack<Frame>,
    value: Value,
    kind: TokenKind,
) -> Result<State, StepEnd>
    ensures { Steps (spec.after decls head frames value kind) result }
{
    let mut frames = frames;
    match frames.pop() {
        None => after_const(decls, head, value, kind),
        Some(Frame::List(opened, items)) => {
            let items = with(items, value)?;
            after_item(decls, head, frames, opened, items, kind)
        }
        Some(Frame::Struct(opened, fields, name)) => {
            let fields = with(fields, Field { name, value })?;
            after_field(decls, head, frames, opened, fields, kind)
        }
    }
}

/// `embed` was read, which is a name unless a path follows.
#[tactic(auto, using(crate::proofs::Tokens::embed_other))]
fn on_embed(
    alloc: Global,
    decls: Seq<Decl>,
    head: Head,
    frames: Stack<Frame>,
    begin: usize,
    token: Token,
) -> Result<State, StepEnd>
    ensures { Steps (spec.on_embed decls head frames begin token.place token.kind) result }
{
    let Token { place, kind } = token;
    if let TokenKind::Text(bytes) = kind {
        let path = Placed { place, bytes };
        return stay(decls, head, frames, Spot::Done(Value::Embed(begin, path)));
    }
    after(decls, head, frames, Value::Word(embed(alloc, begin)?), kind)
}

fn on_dot(
    decls: Seq<Decl>,
    head: Head,
    frames: Stack<Frame>,
    begin: usize,
    token: Token,
) -> Result<State, StepEnd>
    ensures { Steps (spec.on_dot decls head frames begin token.place token.kind) result }
{
    let Token { place, kind } = token;
    match kind {
        TokenKind::Name(bytes) => {
            let value = Value::Constant(begin, Placed { place, bytes });
            stay(decls, head, frames, Spot::Done(value))
        }
        _other => bad(),
    }
}

fn on_item(
    alloc: Global,
    decls: Seq<Decl>,
    head: Head,
    frames: Stack<Frame>,
    opened: usize,
    items: Seq<Value>,
    token: Token,
) -> Result<State, StepEnd>
    ensures { Steps (spec.on_item most_open decls head frames opened items token.place token.kind) result }
{
    match &token.kind {
        TokenKind::CloseBracket => stay(
            decls,
            head,
            frames,
            Spot::Done(Value::List(opened, items)),
        ),
        _ => {
            let frames = frames.with(Frame::List(opened, items))?;
            begin(alloc, decls, head, frames, token)
        }
    }
}

fn on_name(
    decls: Seq<Decl>,
    head: Head,
    frames: Stack<Frame>,
    opened: usize,
    fields: Seq<Field>,
    token: Token,
) -> Result<State, StepEnd>
    ensures { Steps (spec.on_name decls head frames opened fields token.place token.kind) result }
{
    let Token { place, kind } = token;
    match kind {
        TokenKind::CloseParen => stay(
            decls,
            head,
            frames,
            Spot::Done(Value::Struct(opened, fields)),
        ),
        TokenKind::Name(bytes) => {
            let name = Placed { place, bytes };
            stay(decls, head, frames, Spot::Equals(opened, fields, name))
        }
        _other => bad(),
    }
}

fn on_equals(
    decls: Seq<Decl>,
    head: Head,
    frames: Stack<Frame>,
    opened: usize,
    fields: Seq<Field>,
    name: Placed,
    kind: TokenKind,
) -> Result<State, StepEnd>
    ensures { Steps (spec.on_equals decls head frames opened fields name kind) result }
{
    match kind {
        TokenKind::Equals => {
            let frames = frames.with(Frame::Struct(opened, fields, name))?;
            stay(decls, head, frames, Spot::Begin)
        }
        _other => bad(),
    }
}

fn in_value(
    alloc: Global,
    decls: Seq<Decl>,
    head: Head,
    frames: Stack<Frame>,
    spot: Spot,
    token: Token,
) -> Result<State, StepEnd>
    ensures { Steps (spec.in_value most_open decls head frames spot token.place token.kind) result }
{
    match spot {
        Spot::Begin => begin(alloc, decls, head, frames, token),
        Spot::Embed(begin) => on_embed(alloc, decls, head, frames, begin, token),
        Spot::Dot(begin) => on_dot(decls, head, frames, begin, token),
        Spot::Item(opened, items) => on_item(alloc, decls, head, frames, opened, items, token),
        Spot::Name(opened, fields) => on_name(decls, head, frames, opened, fields, token),
        Spot::Equals(opened, fields, name) => {
            on_equals(decls, head, frames, opened, fields, name, token.kind)
        }
        Spot::Done(value) => after(decls, head, frames, value, token.kind),
    }
}

fn begin_decl(decls: Seq<Decl>, kind: TokenKind) -> Result<State, StepEnd>
    ensures { Steps (spec.begin_decl decls kind) result }
{
    match kind {
        TokenKind::Name(word) => {
            if is_word(&word, b"const") {
                to(decls, At::ConstName)
            } else if is_word(&word, b"using") {
                to(decls, At::UsingName)
            } else {
                refuse(Refusal::BadDecl)
            }
        }
        TokenKind::At => to(decls, At::Id),
        _other => refuse(Refusal::BadDecl),
    }
}

fn on_type(decls: Seq<Decl>, head: Head, token: Token) -> Result<State, StepEnd>
    ensures { Steps (spec.on_type decls head token.place token.kind) result }
{
    let Token { place, kind } = token;
    match kind {
        TokenKind::Name(bytes) => to(decls, At::Typed(head, Placed { place, bytes })),
        _other => bad(),
    }
}

fn on_typed(
    alloc: Global,
    decls: Seq<Decl>,
    head: Head,
    last: Placed,
    kind: TokenKind,
) -> Result<State, StepEnd>
    ensures { Steps (spec.on_typed decls head last kind) result }
{
    let Head { name, type_ } = head;
    let type_ = with(type_, last)?;
    let head = Head { name, type_ };
    match kind {
        TokenKind::Dot => to(decls, At::Type(head)),
        TokenKind::Equals => stay(decls, head, Stack::new(alloc), Spot::Begin),
        _other => bad(),
    }
}

/// What the token does.
pub fn step(alloc: Global, state: State, token: Token) -> Result<State, StepEnd>
    ensures { Steps (spec.step most_open state token) result }
{
    let State { decls, at } = state;
    match at {
        At::Decl => begin_decl(decls, token.kind),
        At::Type(head) => on_type(decls, head, token),
        At::Typed(head, last) => on_typed(alloc, decls, head, last, token.kind),
        At::In(head, frames, spot) => in_value(alloc, decls, head, frames, spot, token),
        At::Id => on_id(decls, token),
        At::IdEnd(id) => on_id_end(decls, id, token.kind),
        At::UsingName => on_using_name(decls, token),
        At::UsingEquals(name) => on_using_equals(decls, name, token.kind),
        At::UsingImport(name) => on_using_import(decls, name, token.kind),
        At::UsingPath(name) => on_using_path(decls, name, token),
        At::UsingEnd(name, path) => on_using_end(decls, name, path, token.kind),
        At::ConstName => on_const_name(decls, token),
        At::ConstColon(name) => on_const_colon(alloc, decls, name, token.kind),
    }
}

fn on_id(decls: Seq<Decl>, token: Token) -> Result<State, StepEnd>
    ensures { Steps (spec.on_id decls token.place token.kind) result }
{
    let Token { place, kind } = token;
    match kind {
        TokenKind::Hex(bytes) => to(decls, At::IdEnd(Placed { place, bytes })),
        _other => bad(),
    }
}

fn on_id_end(decls: Seq<Decl>, id: Placed, kind: TokenKind) -> Result<State, StepEnd>
    ensures { Steps (spec.on_id_end decls id kind) result }
{
    match kind {
        TokenKind::Semicolon => to(with(decls, Decl::Id(id))?, At::Decl),
        _other => bad(),
    }
}

fn on_using_name(decls: Seq<Decl>, token: Token) -> Result<State, StepEnd>
    ensures { Steps (spec.on_using_name decls token.place token.kind) result }
{
    let Token { place, kind } = token;
    match kind {
        TokenKind::Name(bytes) => to(decls, At::UsingEquals(Placed { place, bytes })),
        _other => bad(),
    }
}

fn on_using_equals(decls: Seq<Decl>, name: Placed, kind: TokenKind) -> Result<State, StepEnd>
    ensures { Steps (spec.on_using_equals decls name kind) result }
{
    match kind {
        TokenKind::Equals => to(decls, At::UsingImport(name)),
        _other => bad(),
    }
}

fn on_using_import(decls: Seq<Decl>, name: Placed, kind: TokenKind) -> Result<State, StepEnd>
    ensures { Steps (spec.on_using_import decls name kind) result }
{
    match kind {
        TokenKind::Name(word) => {
            if is_word(&word, b"import") {
                to(decls, At::UsingPath(name))
            } else {
                bad()
            }
        }
        _other => bad(),
    }
}

fn on_using_path(decls: Seq<Decl>, name: Placed, token: Token) -> Result<State, StepEnd>
    ensures { Steps (spec.on_using_path decls name token.place token.kind) result }
{
    let Token { place, kind } = token;
    match kind {
        TokenKind::Text(bytes) => to(decls, At::UsingEnd(name, Placed { place, bytes })),
        _other => bad(),
    }
}

fn on_using_end(
    decls: Seq<Decl>,
    name: Placed,
    path: Placed,
    kind: TokenKind,
) -> Result<State, StepEnd>
    ensures { Steps (spec.on_using_end decls name path kind) result }
{
    match kind {
        TokenKind::Semicolon => to(with(decls, Decl::Using { name, path })?, At::Decl),
        _other => bad(),
    }
}

fn on_const_name(decls: Seq<Decl>, token: Token) -> Result<State, StepEnd>
    ensures { Steps (spec.on_const_name decls token.place token.kind) result }
{
    let Token { place, kind } = token;
    match kind {
        TokenKind::Name(bytes) => to(decls, At::ConstColon(Placed { place, bytes })),
        _other => bad(),
    }
}

fn on_const_colon(
    alloc: Global,
    decls: Seq<Decl>,
    name: Placed,
    kind: TokenKind,
) -> Result<State, StepEnd>
    ensures { Steps (spec.on_const_colon decls name kind) result }
{
    match kind {
        TokenKind::Colon => {
            let type_ = Seq::new(alloc);
            to(decls, At::Type(Head { name, type_ }))
        }
        _other => bad(),
    }
}

use crate::{Expr, Key, Name, Target};
use sqlite_items::Boxed;
use std::alloc::Global;
use std::test::Fail;
use wd_base::{NoMemory, Same, Seq, TryClone};

fn name(alloc: Global, place: usize, units: &[u16]) -> Result<Name, NoMemory> {
    Ok(Name {
        place,
        units: Seq::copy(alloc, units)?,
    })
}

#[test]
fn names_and_keys_are_compared_and_copied(rt: HostRuntime) -> Result<(), Fail> {
    let alloc = rt.alloc();
    // two names, whether they are equal, and whether they are alike
    let rows: [(usize, &[u16], usize, &[u16], bool, bool); 4] = [
        (3, &[97, 98], 3, &[97, 98], true, true),
        (3, &[97, 98], 4, &[97, 98], false, true),
        (3, &[97, 98], 3, &[97], false, false),
        (0, &[], 0, &[], true, true),
    ];
    for (place, units, other_place, other_units, same, like) in rows {
        let first = name(alloc, place, units)?;
        let second = name(alloc, other_place, other_units)?;
        assert_eq!(rt; (first.same(&second), first.is_like(&second)), (same, like));
        assert!(rt; first.try_clone(alloc)?.same(&first));
        let key = Key::Name(first);
        assert!(rt; key.try_clone(alloc)?.same(&key));
        assert_eq!(rt; key.same(&Key::Name(second)), same);
        assert!(rt; !key.same(&Key::Text(Seq::copy(alloc, units)?)));
    }
    let number = Key::Number(7);
    assert!(rt; number.try_clone(alloc)?.same(&number));
    assert!(rt; !number.same(&Key::Number(8)));
    Ok(())
}

/// The kinds of what can be written to.
#[derive(Clone, Copy, Debug, PartialEq, Eq)]
enum Kind {
    Variable,
    Field,
    Item,
}

/// What the expression is written to as, where it can be written to.
fn target(expr: Expr) -> Option<Kind> {
    match expr.into_target() {
        Ok(Target::Variable(_)) => Some(Kind::Variable),
        Ok(Target::Field(..)) => Some(Kind::Field),
        Ok(Target::Item(..)) => Some(Kind::Item),
        Err(_) => None,
    }
}

fn boxed(alloc: Global, expr: Expr) -> Result<Boxed<Expr>, NoMemory> {
    match Boxed::new(alloc, expr) {
        Ok(boxed) => Ok(boxed),
        Err(_) => Err(NoMemory),
    }
}

fn field(alloc: Global) -> Result<Expr, NoMemory> {
    let object = boxed(alloc, Expr::This)?;
    Ok(Expr::Member(object, name(alloc, 5, &[97])?))
}

fn item(alloc: Global) -> Result<Expr, NoMemory> {
    let object = boxed(alloc, Expr::This)?;
    Ok(Expr::Index(object, boxed(alloc, Expr::Number(0))?))
}

fn group(alloc: Global) -> Result<Expr, NoMemory> {
    let inner = Expr::Name(name(alloc, 1, &[97])?);
    Ok(Expr::Group(boxed(alloc, inner)?))
}

#[test]
fn a_name_or_a_member_can_be_written_to(rt: HostRuntime) -> Result<(), Fail> {
    let alloc = rt.alloc();
    assert!(rt; target(Expr::Name(name(alloc, 0, &[97])?)) == Some(Kind::Variable));
    assert!(rt; target(field(alloc)?) == Some(Kind::Field));
    assert!(rt; target(item(alloc)?) == Some(Kind::Item));
    assert!(rt; target(group(alloc)?) == None);
    assert!(rt; target(Expr::Null) == None);
    Ok(())
}

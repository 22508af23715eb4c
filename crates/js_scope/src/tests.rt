use crate::{EarlyEnd, EarlyKind, resolve};
use js_tree::{
    ArrowBody, BinaryOp, Catch, Declaration, DeclareKind, Expr, ForBegin, Function, Item, Key,
    Name, Property, Stmt, Tree,
};
use sqlite_items::Boxed;
use std::alloc::Global;
use std::test::Fail;
use wd_base::{NoMemory, Seq};

/// The name of one letter at a place.
fn name(alloc: Global, place: usize, letter: u16) -> Result<Name, NoMemory> {
    Ok(Name {
        place,
        units: Seq::copy(alloc, &[letter])?,
    })
}

fn boxed_stmt(alloc: Global, stmt: Stmt) -> Result<Boxed<Stmt>, NoMemory> {
    match Boxed::new(alloc, stmt) {
        Ok(boxed) => Ok(boxed),
        Err(_) => Err(NoMemory),
    }
}

fn boxed_expr(alloc: Global, expr: Expr) -> Result<Boxed<Expr>, NoMemory> {
    match Boxed::new(alloc, expr) {
        Ok(boxed) => Ok(boxed),
        Err(_) => Err(NoMemory),
    }
}

/// The list of these statements, of which some are missing.
fn list(alloc: Global, stmts: [Option<Stmt>; 3]) -> Result<Seq<Stmt>, NoMemory> {
    let mut list = Seq::new(alloc);
    let [first, second, third] = stmts;
    if let Some(stmt) = first {
        list.push(stmt)?;
    }
    if let Some(stmt) = second {
        list.push(stmt)?;
    }
    if let Some(stmt) = third {
        list.push(stmt)?;
    }
    Ok(list)
}

/// `let a`
fn declare(alloc: Global, place: usize, letter: u16) -> Result<Stmt, NoMemory> {
    let mut declarations = Seq::new(alloc);
    declarations.push(Declaration {
        name: name(alloc, place, letter)?,
        value: None,
    })?;
    Ok(Stmt::Declare(DeclareKind::Let, declarations))
}

/// `{ stmt }`
fn block(alloc: Global, stmt: Stmt) -> Result<Stmt, NoMemory> {
    Ok(Stmt::Block(list(alloc, [Some(stmt), None, None])?))
}

/// A function of one parameter at place 90.
fn function(alloc: Global, is_async: bool, letter: u16, body: Stmt) -> Result<Function, NoMemory> {
    let mut parameters = Seq::new(alloc);
    parameters.push(name(alloc, 90, letter)?)?;
    Ok(Function {
        is_async,
        parameters,
        body: list(alloc, [Some(body), None, None])?,
    })
}

/// `(function (p) { body })` as a statement.
fn call(alloc: Global, is_async: bool, body: Stmt) -> Result<Stmt, NoMemory> {
    Ok(Stmt::Expr(Expr::Function(None, function(alloc, is_async, 112, body)?)))
}

/// `() => value` as a statement.
fn arrow(alloc: Global, is_async: bool, value: Expr) -> Result<Stmt, NoMemory> {
    Ok(Stmt::Expr(Expr::Arrow {
        is_async,
        parameters: Seq::new(alloc),
        body: ArrowBody::Value(boxed_expr(alloc, value)?),
    }))
}

/// `await 0`
fn wait(alloc: Global, place: usize) -> Result<Expr, NoMemory> {
    Ok(Expr::Await(place, boxed_expr(alloc, Expr::Number(0))?))
}

/// `while (0) body`
fn repeat(alloc: Global, body: Stmt) -> Result<Stmt, NoMemory> {
    Ok(Stmt::While(Expr::Number(0), boxed_stmt(alloc, body)?))
}

/// `for (let i;;) body`
fn count(alloc: Global, body: Stmt) -> Result<Stmt, NoMemory> {
    let mut declarations = Seq::new(alloc);
    declarations.push(Declaration {
        name: name(alloc, 50, 105)?,
        value: None,
    })?;
    Ok(Stmt::For {
        begin: ForBegin::Declarations(DeclareKind::Let, declarations),
        test: None,
        update: None,
        body: boxed_stmt(alloc, body)?,
    })
}

/// `try {} catch (e) { body }`
fn attempt(alloc: Global, body: Stmt) -> Result<Stmt, NoMemory> {
    Ok(Stmt::Try {
        body: Seq::new(alloc),
        catch: Some(Catch {
            name: Some(name(alloc, 60, 101)?),
            body: list(alloc, [Some(body), None, None])?,
        }),
        finally: None,
    })
}

/// What `resolve` answers of the script of these statements.
fn fault(alloc: Global, stmts: [Option<Stmt>; 3]) -> Result<Option<(EarlyKind, usize)>, NoMemory> {
    let mut tree: Tree = Seq::new(alloc);
    for stmt in list(alloc, stmts)?.into_vec() {
        tree.push(Item::Stmt(stmt))?;
    }
    match resolve(alloc, tree) {
        Ok(_) => Ok(None),
        Err(EarlyEnd::Fault(fault)) => Ok(Some((fault.kind, fault.place))),
        Err(EarlyEnd::NoMemory) => Err(NoMemory),
    }
}

const A: u16 = 97;

#[test]
fn a_scope_has_each_name_once(rt: HostRuntime) -> Result<(), Fail> {
    let alloc = rt.alloc();
    let double = Some((EarlyKind::DoubleName, 8));
    // let a; let b
    let answer = fault(
        alloc,
        [
            Some(declare(alloc, 4, A)?),
            Some(declare(alloc, 8, 98)?),
            None,
        ],
    )?;
    assert!(rt; answer == None);
    // let a; let a
    let answer = fault(
        alloc,
        [
            Some(declare(alloc, 4, A)?),
            Some(declare(alloc, 8, A)?),
            None,
        ],
    )?;
    assert!(rt; answer == double);
    // let a; { let a }
    let inner = block(alloc, declare(alloc, 8, A)?)?;
    assert!(rt; fault(alloc, [Some(declare(alloc, 4, A)?), Some(inner), None])? == None);
    // { let a; let a }
    let inner = list(
        alloc,
        [
            Some(declare(alloc, 4, A)?),
            Some(declare(alloc, 8, A)?),
            None,
        ],
    )?;
    assert!(rt; fault(alloc, [Some(Stmt::Block(inner)), None, None])? == double);
    // let a; function a(p) {}
    let named = Stmt::DeclareFunction(
        name(alloc, 8, A)?,
        function(alloc, false, 112, Stmt::Empty)?,
    );
    assert!(rt; fault(alloc, [Some(declare(alloc, 4, A)?), Some(named), None])? == double);
    // function (p) { let p }
    let inner = call(alloc, false, declare(alloc, 8, 112)?)?;
    assert!(rt; fault(alloc, [Some(inner), None, None])? == double);
    // function (p) { { let p } }
    let inner = call(alloc, false, block(alloc, declare(alloc, 8, 112)?)?)?;
    assert!(rt; fault(alloc, [Some(inner), None, None])? == None);
    // try {} catch (e) { let e }, and with one block more
    let inner = attempt(alloc, declare(alloc, 8, 101)?)?;
    assert!(rt; fault(alloc, [Some(inner), None, None])? == double);
    let inner = attempt(alloc, block(alloc, declare(alloc, 8, 101)?)?)?;
    assert!(rt; fault(alloc, [Some(inner), None, None])? == None);
    // let i; for (let i;;) { let i }
    let inner = count(alloc, block(alloc, declare(alloc, 8, 105)?)?)?;
    assert!(rt; fault(alloc, [Some(declare(alloc, 4, 105)?), Some(inner), None])? == None);
    Ok(())
}

#[test]
fn words_stand_where_they_are_allowed(rt: HostRuntime) -> Result<(), Fail> {
    let alloc = rt.alloc();
    let outside = |kind: EarlyKind| Some((kind, 7));
    // { return }
    let inner = block(alloc, Stmt::Return(7, None))?;
    assert!(rt; fault(alloc, [Some(inner), None, None])? == outside(EarlyKind::ReturnOutside));
    // function (p) { { return } }
    let inner = call(alloc, false, block(alloc, Stmt::Return(7, None))?)?;
    assert!(rt; fault(alloc, [Some(inner), None, None])? == None);
    // break; while (0) { continue }; while (0) function (p) { break }
    let inner = Some(Stmt::Break(7));
    assert!(rt; fault(alloc, [inner, None, None])? == outside(EarlyKind::BreakOutside));
    let inner = repeat(alloc, block(alloc, Stmt::Continue(7))?)?;
    assert!(rt; fault(alloc, [Some(inner), None, None])? == None);
    let inner = count(alloc, Stmt::Break(7))?;
    assert!(rt; fault(alloc, [Some(inner), None, None])? == None);
    let inner = repeat(alloc, call(alloc, false, Stmt::Break(7))?)?;
    assert!(rt; fault(alloc, [Some(inner), None, None])? == outside(EarlyKind::BreakOutside));
    // await 0; async () => await 0; async function (p) { () => await 0 }
    let inner = Some(Stmt::Expr(wait(alloc, 7)?));
    assert!(rt; fault(alloc, [inner, None, None])? == outside(EarlyKind::AwaitOutside));
    let inner = arrow(alloc, true, wait(alloc, 7)?)?;
    assert!(rt; fault(alloc, [Some(inner), None, None])? == None);
    let inner = call(alloc, true, arrow(alloc, false, wait(alloc, 7)?)?)?;
    assert!(rt; fault(alloc, [Some(inner), None, None])? == outside(EarlyKind::AwaitOutside));
    Ok(())
}

#[test]
fn the_first_fault_in_the_text_comes(rt: HostRuntime) -> Result<(), Fail> {
    let alloc = rt.alloc();
    // let a; return; let a
    let stmts = [
        Some(declare(alloc, 4, A)?),
        Some(Stmt::Return(7, None)),
        Some(declare(alloc, 18, A)?),
    ];
    assert!(rt; fault(alloc, stmts)? == Some((EarlyKind::ReturnOutside, 7)));
    // let a; let a; return
    let stmts = [
        Some(declare(alloc, 4, A)?),
        Some(declare(alloc, 11, A)?),
        Some(Stmt::Return(14, None)),
    ];
    assert!(rt; fault(alloc, stmts)? == Some((EarlyKind::DoubleName, 11)));
    // (await 0) + (await 0)
    let first = boxed_expr(alloc, wait(alloc, 1)?)?;
    let second = boxed_expr(alloc, wait(alloc, 13)?)?;
    let sum = Stmt::Expr(Expr::Binary(BinaryOp::Add, first, second));
    assert!(rt; fault(alloc, [Some(sum), None, None])? == Some((EarlyKind::AwaitOutside, 1)));
    Ok(())
}

#[test]
fn methods_of_the_export_are_functions(rt: HostRuntime) -> Result<(), Fail> {
    let alloc = rt.alloc();
    // export default { async a(p) { return await 0 }, a(p) { return await 0 } }
    for (is_async, end) in [(true, None), (false, Some(EarlyKind::AwaitOutside))] {
        let body = Stmt::Return(3, Some(wait(alloc, 9)?));
        let key = Key::Name(name(alloc, 1, A)?);
        let mut properties = Seq::new(alloc);
        properties.push(Property::Method(key, function(alloc, is_async, 112, body)?))?;
        let mut tree: Tree = Seq::new(alloc);
        tree.push(Item::Export(properties))?;
        match resolve(alloc, tree) {
            Ok(program) => assert!(rt; end == None && program.tree().len() == 1),
            Err(EarlyEnd::Fault(fault)) => assert!(rt; end == Some(fault.kind)),
            Err(EarlyEnd::NoMemory) => return Err(NoMemory.into()),
        }
    }
    Ok(())
}

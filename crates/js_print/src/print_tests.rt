use crate::print;
use js_tree::{
    ArrowBody, BinaryOp, Declaration, DeclareKind, Expr, Function, Item, Key, Name, Property, Stmt,
    TemplateItem, Tree,
};
use sqlite_items::Boxed;
use std::alloc::Global;
use std::test::Fail;
use wd_base::{NoMemory, Seq, units_of};

fn name(alloc: Global, letters: &[u8]) -> Result<Name, NoMemory> {
    Ok(Name {
        place: 0,
        units: units_of(alloc, letters)?,
    })
}

fn variable(alloc: Global, letters: &[u8]) -> Result<Expr, NoMemory> {
    Ok(Expr::Name(name(alloc, letters)?))
}

fn boxed(alloc: Global, expr: Expr) -> Result<Boxed<Expr>, NoMemory> {
    match Boxed::new(alloc, expr) {
        Ok(boxed) => Ok(boxed),
        Err(_) => Err(NoMemory),
    }
}

fn one<T: Drop>(alloc: Global, item: T) -> Result<Seq<T>, NoMemory> {
    let mut items = Seq::new(alloc);
    items.push(item)?;
    Ok(items)
}

fn sum(alloc: Global) -> Result<Expr, NoMemory> {
    let left = boxed(alloc, variable(alloc, b"a")?)?;
    Ok(Expr::Binary(BinaryOp::Add, left, boxed(alloc, Expr::Number(10))?))
}

fn template(alloc: Global) -> Result<Expr, NoMemory> {
    let item = TemplateItem {
        units: units_of(alloc, b"a")?,
        value: Expr::This,
    };
    Ok(Expr::Template(one(alloc, item)?, units_of(alloc, b"`")?))
}

fn arrow(alloc: Global, parameters: Seq<Name>) -> Result<Expr, NoMemory> {
    Ok(Expr::Arrow {
        is_async: true,
        parameters,
        body: ArrowBody::Value(boxed(alloc, Expr::Null)?),
    })
}

fn constant(alloc: Global) -> Result<Stmt, NoMemory> {
    let declaration = Declaration {
        name: name(alloc, b"c")?,
        value: Some(Expr::Text(units_of(alloc, b"\"")?)),
    };
    Ok(Stmt::Declare(DeclareKind::Const, one(alloc, declaration)?))
}

fn function(alloc: Global) -> Result<Function, NoMemory> {
    Ok(Function {
        is_async: true,
        parameters: one(alloc, name(alloc, b"x")?)?,
        body: one(alloc, Stmt::Return(0, None))?,
    })
}

fn export(alloc: Global) -> Result<Item, NoMemory> {
    let key = Key::Name(name(alloc, b"delete")?);
    let property = Property::Method(key, function(alloc)?);
    Ok(Item::Export(one(alloc, property)?))
}

fn script(alloc: Global, stmt: Stmt) -> Result<Tree, NoMemory> {
    one(alloc, Item::Stmt(stmt))
}

#[test]
fn a_tree_has_this_text(rt: HostRuntime) -> Result<(), Fail> {
    let alloc = rt.alloc();
    let short = arrow(alloc, one(alloc, name(alloc, b"x")?)?)?;
    let object = boxed(alloc, variable(alloc, b"a")?)?;
    let call = Expr::Call(object, one(alloc, Expr::True)?);
    let mut exported = one(alloc, export(alloc)?)?;
    exported.push(Item::Stmt(Stmt::Empty))?;
    let rows: [(Tree, &[u8]); 9] = [
        (Seq::new(alloc), b""),
        (script(alloc, Stmt::Expr(sum(alloc)?))?, b"a + 10 ; "),
        (
            script(alloc, Stmt::Expr(template(alloc)?))?,
            b"`a${ this }\\`` ; ",
        ),
        (script(alloc, Stmt::Expr(short))?, b"async x => null ; "),
        (
            script(alloc, Stmt::Expr(arrow(alloc, Seq::new(alloc))?))?,
            b"async ( ) => null ; ",
        ),
        (script(alloc, Stmt::Expr(call))?, b"a ( true , ) ; "),
        (script(alloc, constant(alloc)?)?, b"const c = \"\\\"\" ; "),
        (
            script(alloc, Stmt::Block(one(alloc, Stmt::Throw(Expr::This))?))?,
            b"{ throw this ; } ",
        ),
        (
            exported,
            b"export default { async delete ( x , ) { return ; } , } ; ; ",
        ),
    ];
    for row in rows.as_slice() {
        let expected = units_of(alloc, row.1)?;
        let text = print(alloc, &row.0)?;
        assert_eq!(rt; text.as_slice(), expected.as_slice());
    }
    Ok(())
}

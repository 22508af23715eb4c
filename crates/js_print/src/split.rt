ghost use Rattle.std.specs.Prelude.{◌≡◌, ◌++◌, [], ◌∷◌, ◌+◌, map, OnOk};
ghost use Rattle.js_grammar.specs.Grammar as grammar;
ghost use Rattle.js_tree.specs.Weight as weight;
ghost use Rattle.js_tree.specs.declared.tree.Expr.TheVariants as exprs;
ghost use Rattle.js_print.specs.Splits.{SplitsArrowParameters, SplitsExpr, SplitsFunction};
ghost use Rattle.js_print.specs.Splits.{SplitsTarget, SplitsTemplate, SplitsUnary, SplitsUpdate};
ghost use Rattle.js_print.specs.Walk.{IsSplit};

use crate::piece::Piece;
use js_lex::{Punctuator, Reserved, TemplatePart};
use js_tree::{
    ArrowBody, AssignOp, BinaryOp, Expr, Function, Name, Property, Target, TemplateItem, UnaryOp,
    UpdateOp, UpdateSide,
};
use sqlite_items::Boxed;
use wd_base::{NoMemory, Seq, Stack};

/// Puts pieces on the tasks, the first one on top.
pub(crate) fn put<'a>(tasks: &mut Stack<Piece<'a>>, pieces: &[Piece<'a>]) -> Result<(), NoMemory>
    ensures { OnOk result (tasks.new ≡ pieces.now ++ tasks.old) }
{
    let mut left = pieces.len();
    while left > 0 {
        left -= 1;
        tasks.push(pieces[left])?;
    }
    Ok(())
}

fn binary_sign(op: BinaryOp) -> Punctuator
    ensures { result ≡ grammar.binary_sign op }
{
    match op {
        BinaryOp::Coalesce => Punctuator::QuestionQuestion,
        BinaryOp::Or => Punctuator::OrOr,
        BinaryOp::And => Punctuator::AndAnd,
        BinaryOp::Identical => Punctuator::Identical,
        BinaryOp::NotIdentical => Punctuator::NotIdentical,
        BinaryOp::Less => Punctuator::Less,
        BinaryOp::LessEqual => Punctuator::LessEqual,
        BinaryOp::Greater => Punctuator::Greater,
        BinaryOp::GreaterEqual => Punctuator::GreaterEqual,
        BinaryOp::Add => Punctuator::Plus,
        BinaryOp::Subtract => Punctuator::Minus,
        BinaryOp::Multiply => Punctuator::Star,
        BinaryOp::Divide => Punctuator::Slash,
        BinaryOp::Remainder => Punctuator::Percent,
    }
}

fn assign_sign(op: AssignOp) -> Punctuator
    ensures { result ≡ grammar.assign_sign op }
{
    match op {
        AssignOp::Set => Punctuator::Equal,
        AssignOp::Add => Punctuator::PlusEqual,
        AssignOp::Subtract => Punctuator::MinusEqual,
    }
}

fn update_sign(op: UpdateOp) -> Punctuator
    ensures { result ≡ grammar.update_sign op }
{
    match op {
        UpdateOp::Increment => Punctuator::PlusPlus,
        UpdateOp::Decrement => Punctuator::MinusMinus,
    }
}

/// Puts the tokens and the parts of a target on the tasks.
pub(crate) fn split_target<'a>(
    tasks: &mut Stack<Piece<'a>>,
    target: &'a Target,
) -> Result<(), NoMemory>
    ensures { OnOk result (SplitsTarget tasks.old target.now tasks.new) }
{
    match target {
        Target::Variable(name) => put(tasks, &[Piece::Name(name)]),
        Target::Field(object, name) => put(
            tasks,
            &[
                Piece::Expr(object.get()),
                Piece::Sign(Punctuator::Dot),
                Piece::Name(name),
            ],
        ),
        Target::Item(object, key) => put(
            tasks,
            &[
                Piece::Expr(object.get()),
                Piece::Sign(Punctuator::OpenBracket),
                Piece::Expr(key.get()),
                Piece::Sign(Punctuator::CloseBracket),
            ],
        ),
    }
}

/// Puts the tokens and the parts of a function on the tasks, from its parameters on.
pub(crate) fn split_function<'a>(
    tasks: &mut Stack<Piece<'a>>,
    function: &'a Function,
) -> Result<(), NoMemory>
    ensures { OnOk result (SplitsFunction tasks.old function.now tasks.new) }
{
    put(
        tasks,
        &[
            Piece::Sign(Punctuator::OpenParen),
            Piece::Names(function.parameters.as_slice()),
            Piece::Sign(Punctuator::CloseParen),
            Piece::Sign(Punctuator::OpenBrace),
            Piece::Stmts(function.body.as_slice()),
            Piece::Sign(Punctuator::CloseBrace),
        ],
    )
}

/// Puts names in parentheses on the tasks.
fn put_parameters<'a>(tasks: &mut Stack<Piece<'a>>, names: &'a [Name]) -> Result<(), NoMemory>
    ensures { OnOk result (IsSplit tasks.old (grammar.parameters names.now) (4 + weight.names names.now) tasks.new) }
{
    put(
        tasks,
        &[
            Piece::Sign(Punctuator::OpenParen),
            Piece::Names(names),
            Piece::Sign(Punctuator::CloseParen),
        ],
    )
}

/// Puts the tokens of an arrow's parameters on the tasks: one name stands without parentheses.
pub(crate) fn split_arrow_parameters<'a>(
    tasks: &mut Stack<Piece<'a>>,
    names: &'a [Name],
) -> Result<(), NoMemory>
    ensures { OnOk result (SplitsArrowParameters tasks.old names.now tasks.new) }
{
    match names {
        [] => put_parameters(tasks, names),
        [name] => put(tasks, &[Piece::Name(name)]),
        [_, _, ..] => put_parameters(tasks, names),
    }
}

/// Puts the tokens and the parts of an arrow's body on the tasks, with the arrow before it.
pub(crate) fn split_arrow_body<'a>(
    tasks: &mut Stack<Piece<'a>>,
    body: &'a ArrowBody,
) -> Result<(), NoMemory>
    ensures { OnOk result (IsSplit tasks.old (grammar.of_arrow_body body.now) (weight.of_arrow body.now) tasks.new) }
{
    match body {
        ArrowBody::Statements(stmts) => put(
            tasks,
            &[
                Piece::Sign(Punctuator::Arrow),
                Piece::Sign(Punctuator::OpenBrace),
                Piece::Stmts(stmts.as_slice()),
                Piece::Sign(Punctuator::CloseBrace),
            ],
        ),
        ArrowBody::Value(value) => put(
            tasks,
            &[Piece::Sign(Punctuator::Arrow), Piece::Expr(value.get())],
        ),
    }
}

/// Puts a template on the tasks.
fn put_template<'a>(
    tasks: &mut Stack<Piece<'a>>,
    items: &'a [TemplateItem],
    last: &'a [u16],
) -> Result<(), NoMemory>
    ensures { OnOk result (SplitsTemplate tasks.old items.now last.now tasks.new) }
{
    match items {
        [] => put(tasks, &[Piece::Part(TemplatePart::Whole, last)]),
        [first, others @ ..] => put(
            tasks,
            &[
                Piece::Part(TemplatePart::Head, first.units.as_slice()),
                Piece::Expr(&first.value),
                Piece::TemplateRest(others, last),
            ],
        ),
    }
}

/// Puts an operator and its operand on the tasks.
fn put_unary<'a>(tasks: &mut Stack<Piece<'a>>, op: UnaryOp, value: &'a Expr) -> Result<(), NoMemory>
    ensures { OnOk result (SplitsUnary tasks.old op value.now tasks.new) }
{
    match op {
        UnaryOp::Not => put(tasks, &[Piece::Sign(Punctuator::Not), Piece::Expr(value)]),
        UnaryOp::Negate => put(tasks, &[Piece::Sign(Punctuator::Minus), Piece::Expr(value)]),
        UnaryOp::TypeOf => put(tasks, &[Piece::Word(Reserved::TypeOf), Piece::Expr(value)]),
    }
}

/// Puts `++` or `--` and its target on the tasks.
fn put_update<'a>(
    tasks: &mut Stack<Piece<'a>>,
    side: UpdateSide,
    op: UpdateOp,
    target: &'a Target,
) -> Result<(), NoMemory>
    ensures { OnOk result (SplitsUpdate tasks.old side op target.now tasks.new) }
{
    let sign = update_sign(op);
    match side {
        UpdateSide::Before => put(tasks, &[Piece::Sign(sign), Piece::Target(target)]),
        UpdateSide::Behind => put(tasks, &[Piece::Target(target), Piece::Sign(sign)]),
    }
}

/// Puts an array on the tasks.
fn put_array<'a>(tasks: &mut Stack<Piece<'a>>, items: &'a Seq<Expr>) -> Result<(), NoMemory>
    ensures { OnOk result (SplitsExpr tasks.old (exprs.Array items.now) tasks.new) }
{
    put(
        tasks,
        &[
            Piece::Sign(Punctuator::OpenBracket),
            Piece::Exprs(items.as_slice()),
            Piece::Sign(Punctuator::CloseBracket),
        ],
    )
}

/// Puts an object on the tasks.
fn put_object<'a>(
    tasks: &mut Stack<Piece<'a>>,
    properties: &'a Seq<Property>,
) -> Result<(), NoMemory>
    ensures { OnOk result (SplitsExpr tasks.old (exprs.Object properties.now) tasks.new) }
{
    put(
        tasks,
        &[
            Piece::Sign(Punctuator::OpenBrace),
            Piece::Properties(properties.as_slice()),
            Piece::Sign(Punctuator::CloseBrace),
        ],
    )
}

/// Puts a function, with its name where it has one, on the tasks.
fn put_function<'a>(
    tasks: &mut Stack<Piece<'a>>,
    name: &'a Option<Name>,
    function: &'a Function,
) -> Result<(), NoMemory>
    ensures { OnOk result (SplitsExpr tasks.old (exprs.Function name.now function.now) tasks.new) }
{
    put(
        tasks,
        &[
            Piece::Async(function.is_async),
            Piece::Word(Reserved::Function),
            Piece::OptionalName(name),
            Piece::Function(function),
        ],
    )
}

/// Puts an arrow on the tasks.
fn put_arrow<'a>(
    tasks: &mut Stack<Piece<'a>>,
    is_async: bool,
    parameters: &'a Seq<Name>,
    body: &'a ArrowBody,
) -> Result<(), NoMemory>
    ensures { OnOk result (SplitsExpr tasks.old (exprs.Arrow is_async parameters.now body.now) tasks.new) }
{
    put(
        tasks,
        &[
            Piece::Async(is_async),
            Piece::ArrowParameters(parameters.as_slice()),
            Piece::ArrowBody(body),
        ],
    )
}

/// Puts an expression in parentheses on the tasks.
fn put_group<'a>(tasks: &mut Stack<Piece<'a>>, inner: &'a Boxed<Expr>) -> Result<(), NoMemory>
    ensures { OnOk result (SplitsExpr tasks.old (exprs.Group inner.now) tasks.new) }
{
    put(
        tasks,
        &[
            Piece::Sign(Punctuator::OpenParen),
            Piece::Expr(inner.get()),
            Piece::Sign(Punctuator::CloseParen),
        ],
    )
}

/// Puts an operator between its operands on the tasks.
fn put_binary<'a>(
    tasks: &mut Stack<Piece<'a>>,
    op: BinaryOp,
    left: &'a Boxed<Expr>,
    right: &'a Boxed<Expr>,
) -> Result<(), NoMemory>
    ensures { OnOk result (SplitsExpr tasks.old (exprs.Binary op left.now right.now) tasks.new) }
{
    put(
        tasks,
        &[
            Piece::Expr(left.get()),
            Piece::Sign(binary_sign(op)),
            Piece::Expr(right.get()),
        ],
    )
}

/// Puts a condition with its branches on the tasks.
fn put_conditional<'a>(
    tasks: &mut Stack<Piece<'a>>,
    test: &'a Boxed<Expr>,
    yes: &'a Boxed<Expr>,
    no: &'a Boxed<Expr>,
) -> Result<(), NoMemory>
    ensures { OnOk result (SplitsExpr tasks.old (exprs.Conditional test.now yes.now no.now) tasks.new) }
{
    put(
        tasks,
        &[
            Piece::Expr(test.get()),
            Piece::Sign(Punctuator::Question),
            Piece::Expr(yes.get()),
            Piece::Sign(Punctuator::Colon),
            Piece::Expr(no.get()),
        ],
    )
}

/// Puts an assignment on the tasks.
fn put_assign<'a>(
    tasks: &mut Stack<Piece<'a>>,
    op: AssignOp,
    target: &'a Target,
    value: &'a Boxed<Expr>,
) -> Result<(), NoMemory>
    ensures { OnOk result (SplitsExpr tasks.old (exprs.Assign op target.now value.now) tasks.new) }
{
    put(
        tasks,
        &[
            Piece::Target(target),
            Piece::Sign(assign_sign(op)),
            Piece::Expr(value.get()),
        ],
    )
}

/// Puts a call on the tasks.
fn put_call<'a>(
    tasks: &mut Stack<Piece<'a>>,
    callee: &'a Boxed<Expr>,
    arguments: &'a Seq<Expr>,
) -> Result<(), NoMemory>
    ensures { OnOk result (SplitsExpr tasks.old (exprs.Call callee.now arguments.now) tasks.new) }
{
    put(
        tasks,
        &[
            Piece::Expr(callee.get()),
            Piece::Sign(Punctuator::OpenParen),
            Piece::Exprs(arguments.as_slice()),
            Piece::Sign(Punctuator::CloseParen),
        ],
    )
}

/// Puts a `new` on the tasks.
fn put_new<'a>(
    tasks: &mut Stack<Piece<'a>>,
    name: &'a Name,
    arguments: &'a Seq<Expr>,
) -> Result<(), NoMemory>
    ensures { OnOk result (SplitsExpr tasks.old (exprs.New name.now arguments.now) tasks.new) }
{
    put(
        tasks,
        &[
            Piece::Word(Reserved::New),
            Piece::Name(name),
            Piece::Sign(Punctuator::OpenParen),
            Piece::Exprs(arguments.as_slice()),
            Piece::Sign(Punctuator::CloseParen),
        ],
    )
}

/// Puts a member by its name on the tasks.
fn put_member<'a>(
    tasks: &mut Stack<Piece<'a>>,
    object: &'a Boxed<Expr>,
    name: &'a Name,
) -> Result<(), NoMemory>
    ensures { OnOk result (SplitsExpr tasks.old (exprs.Member object.now name.now) tasks.new) }
{
    put(
        tasks,
        &[
            Piece::Expr(object.get()),
            Piece::Sign(Punctuator::Dot),
            Piece::Name(name),
        ],
    )
}

/// Puts a member by its key on the tasks.
fn put_index<'a>(
    tasks: &mut Stack<Piece<'a>>,
    object: &'a Boxed<Expr>,
    key: &'a Boxed<Expr>,
) -> Result<(), NoMemory>
    ensures { OnOk result (SplitsExpr tasks.old (exprs.Index object.now key.now) tasks.new) }
{
    put(
        tasks,
        &[
            Piece::Expr(object.get()),
            Piece::Sign(Punctuator::OpenBracket),
            Piece::Expr(key.get()),
            Piece::Sign(Punctuator::CloseBracket),
        ],
    )
}

/// Puts the tokens and the parts of an expression on the tasks.
pub(crate) fn split_expr<'a>(tasks: &mut Stack<Piece<'a>>, expr: &'a Expr) -> Result<(), NoMemory>
    ensures { OnOk result (IsSplit tasks.old (grammar.of_expr expr.now).forms (weight.of_expr expr.now) tasks.new) }
{
    match expr {
        Expr::Name(name) => put(tasks, &[Piece::Name(name)]),
        Expr::Number(number) => put(tasks, &[Piece::Number(*number)]),
        Expr::Text(units) => put(tasks, &[Piece::Text(units.as_slice())]),
        Expr::True => put(tasks, &[Piece::Word(Reserved::True)]),
        Expr::False => put(tasks, &[Piece::Word(Reserved::False)]),
        Expr::Null => put(tasks, &[Piece::Word(Reserved::Null)]),
        Expr::This => put(tasks, &[Piece::Word(Reserved::This)]),
        Expr::Template(items, last) => put_template(tasks, items.as_slice(), last.as_slice()),
        Expr::Array(items) => put_array(tasks, items),
        Expr::Object(properties) => put_object(tasks, properties),
        Expr::Function(name, function) => put_function(tasks, name, function),
        Expr::Arrow {
            is_async,
            parameters,
            body,
        } => put_arrow(tasks, *is_async, parameters, body),
        Expr::Group(inner) => put_group(tasks, inner),
        Expr::Unary(op, value) => put_unary(tasks, *op, value.get()),
        Expr::Await(_, value) => put(
            tasks,
            &[Piece::Word(Reserved::Await), Piece::Expr(value.get())],
        ),
        Expr::Update(side, op, target) => put_update(tasks, *side, *op, target),
        Expr::Binary(op, left, right) => put_binary(tasks, *op, left, right),
        Expr::Conditional(test, yes, no) => put_conditional(tasks, test, yes, no),
        Expr::Assign(op, target, value) => put_assign(tasks, *op, target, value),
        Expr::Call(callee, arguments) => put_call(tasks, callee, arguments),
        Expr::New(name, arguments) => put_new(tasks, name, arguments),
        Expr::Member(object, name) => put_member(tasks, object, name),
        Expr::Index(object, key) => put_index(tasks, object, key),
    }
}

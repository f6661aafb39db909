//! Bodies of stages that tests run, each with what a task relies on.

ghost use Rattle.std.specs.Prelude.{◌≡◌, ◌≤◌, ◌<◌, length, max, All, IfOk};
ghost use Rattle.aqe_estimates.specs.LoadedTables.{tables_of};
ghost use Rattle.aqe_rects.specs.Rectangles.{LiesWithin};
ghost use Rattle.aqe_checks.specs.Serving.{Follows, HasTable, Holds, IsReadyAnywhere, Ready};

use aqe_base::{Memory, Rect, Rects, StageId};
use aqe_blocks::Outputs;
use aqe_boxes::both;
use aqe_expr::{BinaryOp, Expr};
use aqe_logical::{AggCall, AggCalls, AggFun, Exprs};
use aqe_physical::Plan;
use aqe_tables::Tables;
use aqe_values::Value;
use std::alloc::Global;
use std::test::Fail;

/// A plan with the number of its parts and how many values its rows have.
#[derive(Drop)]
pub struct Body {
    pub plan: Plan,
    pub parts: u32,
    pub width: u32,
}

/// What tasks run over: table 0, whose rows have two values, and what is kept of stage 0, if there is one.
#[derive(Drop)]
pub struct Ground {
    pub tables: Tables,
    pub outputs: Outputs,
    pub maps: u32,
    pub reducers: u32,
    pub width: u32,
}

/// A rectangle as its first map, the map behind its last, its first reducer, and the reducer behind its last.
pub type Corners = (u32, u32, u32, u32);

/// The one row without values.
#[tactic(auto, using(crate::proofs::BodySteps::one_row_ready))]
fn one_row() -> Body
    ensures { IsReadyAnywhere result.plan result.parts result.width }
{
    Body {
        plan: Plan::OneRow,
        parts: 1,
        width: 0,
    }
}

/// No row, in two parts of rows of two values.
#[tactic(auto, using(crate::proofs::BodySteps::nothing_ready))]
fn nothing() -> Body
    ensures { IsReadyAnywhere result.plan result.parts result.width }
{
    Body {
        plan: Plan::Nothing { parts: 2, width: 2 },
        parts: 2,
        width: 2,
    }
}

fn at_least_one(number: u32) -> u32
    ensures { result ≡ max 1 number }
{
    number.max(1)
}

/// The rows of table 0.
#[tactic(auto, using(crate::proofs::StageSteps::scan_here))]
fn scan(ground: &Ground) -> Body
    requires { HasTable ground.now.tables }
    ensures { Ready (tables_of ground.now.tables) ground.now.outputs ground.now.maps result.plan result.parts result.width }
{
    let files = ground.tables.files(0);
    Body {
        plan: Plan::Scan { table: 0, files },
        parts: at_least_one(files),
        width: 2,
    }
}

/// The rectangles, where each lies within the cells of so many maps and reducers.
fn rects_of(alloc: Global, corners: &[Corners], maps: u32, reducers: u32) -> Result<Rects, Fail>
    ensures lie { IfOk result (λ rects. All (LiesWithin maps reducers) rects) }
    ensures few { IfOk result (λ rects. length rects ≤ 101) }
{
    let mut rects = Rects::new(alloc);
    'corners: for (m0, m1, r0, r1) in corners {
        if *m1 > maps || *r1 > reducers || rects.len() > 100 {
            return Err(Fail::new("no such cells"));
        }
        rects.push(Rect {
            m0: *m0,
            m1: *m1,
            r0: *r0,
            r1: *r1,
        })?;
    }
    Ok(rects)
}

/// What rectangles of the cells of stage 0 hold.
#[tactic(auto, using(crate::proofs::BodySteps::read_ready))]
fn read(alloc: Global, ground: &Ground, corners: &[Corners]) -> Result<Body, Fail>
    requires { Holds (tables_of ground.now.tables) ground.now.outputs ground.now.maps ground.now.reducers ground.now.width }
    ensures { IfOk result (λ body. Ready (tables_of ground.now.tables) ground.now.outputs ground.now.maps body.plan body.parts body.width) }
{
    if ground.maps == 0 {
        return Err(Fail::new("no stage"));
    }
    let rects = rects_of(alloc, corners, ground.maps, ground.reducers)?;
    let parts = rects.len() as u32;
    Ok(Body {
        plan: Plan::Read {
            stage: StageId(0),
            maps: ground.maps,
            reducers: ground.reducers,
            rects,
        },
        parts,
        width: ground.width,
    })
}

/// A body without a body below it.
#[tactic(auto, using(crate::proofs::BodySteps::ready_here))]
fn leaf(alloc: Global, ground: &Ground, corners: &[Corners], word: &str) -> Result<Body, Fail>
    requires table { HasTable ground.now.tables }
    requires stage { Holds (tables_of ground.now.tables) ground.now.outputs ground.now.maps ground.now.reducers ground.now.width }
    ensures { IfOk result (λ body. Ready (tables_of ground.now.tables) ground.now.outputs ground.now.maps body.plan body.parts body.width) }
{
    match word {
        "one" => Ok(one_row()),
        "nothing" => Ok(nothing()),
        "scan" => Ok(scan(ground)),
        "read" => read(alloc, ground, corners),
        _ => Err(Fail::new("no leaf")),
    }
}

/// The columns of these numbers.
pub fn columns(alloc: Global, numbers: &[u32]) -> Result<Exprs, Memory> {
    let mut list = Exprs::new(alloc);
    for number in numbers {
        list.push(Expr::Column(*number))?;
    }
    Ok(list)
}

/// How often the second column is not NULL, and its sum.
fn count_and_sum(alloc: Global) -> Result<AggCalls, Memory> {
    let mut calls = AggCalls::new(alloc);
    for fun in [AggFun::Count, AggFun::Sum] {
        calls.push(AggCall {
            fun,
            arg: Expr::Column(1),
        })?;
    }
    Ok(calls)
}

/// Whether the first column is above 1.
fn above_one(alloc: Global) -> Result<Expr, Memory> {
    let one = Expr::Literal(Value::Int(1));
    match Expr::binary(alloc, BinaryOp::Gt, Expr::Column(0), one) {
        Ok(test) => Ok(test),
        Err(_) => Err(Memory),
    }
}

/// The rows whose first column is above 1.
#[tactic(auto, using(crate::proofs::BodySteps::filter_follows))]
fn filtered(alloc: Global, child: Body) -> Result<Body, Fail>
    ensures { IfOk result (λ body. Follows child.plan child.parts child.width body.plan body.parts body.width) }
{
    let (parts, width) = (child.parts, child.width);
    let (cond, child) = both(above_one(alloc), Ok(child.plan))?;
    let plan = Plan::filter(alloc, cond, child)?;
    Ok(Body { plan, parts, width })
}

/// The second column and then the first one.
#[tactic(auto, using(crate::proofs::BodySteps::project_follows))]
fn projected(alloc: Global, child: Body) -> Result<Body, Fail>
    ensures { IfOk result (λ body. Follows child.plan child.parts child.width body.plan body.parts body.width) }
{
    let parts = child.parts;
    let (items, child) = both(columns(alloc, &[1, 0]), Ok(child.plan))?;
    if items.len() > 100 {
        return Err(Fail::new("many items"));
    }
    let width = items.len() as u32;
    let plan = Plan::project(alloc, items, child)?;
    Ok(Body { plan, parts, width })
}

/// The partial rows of counts and sums by columns.
#[tactic(auto, using(crate::proofs::BodySteps::partial_follows))]
fn grouped(alloc: Global, keys: &[u32], child: Body) -> Result<Body, Fail>
    ensures { IfOk result (λ body. Follows child.plan child.parts child.width body.plan body.parts body.width) }
{
    let parts = child.parts;
    let lists = both(columns(alloc, keys), count_and_sum(alloc));
    let ((keys, calls), child) = both(lists, Ok(child.plan))?;
    if keys.len() > 100 || calls.len() > 100 {
        return Err(Fail::new("many columns"));
    }
    let width = keys.len() as u32 + calls.len() as u32;
    let plan = Plan::partial(alloc, keys, calls, child)?;
    Ok(Body { plan, parts, width })
}

/// The groups of partial rows of so many keys.
#[tactic(auto, using(crate::proofs::BodySteps::final_follows))]
fn finished(alloc: Global, keys: u32, child: Body) -> Result<Body, Fail>
    ensures { IfOk result (λ body. Follows child.plan child.parts child.width body.plan body.parts body.width) }
{
    let (parts, width) = (child.parts, child.width);
    let (calls, child) = both(count_and_sum(alloc), Ok(child.plan))?;
    if calls.len() > 100 || keys > 100 || width != keys + calls.len() as u32 {
        return Err(Fail::new("no partial rows"));
    }
    let plan = Plan::last(alloc, keys, calls, child)?;
    Ok(Body { plan, parts, width })
}

/// One step more over a body.
fn step(alloc: Global, word: &str, child: Body) -> Result<Body, Fail>
    ensures { IfOk result (λ body. Follows child.plan child.parts child.width body.plan body.parts body.width) }
{
    match word {
        "filter" => filtered(alloc, child),
        "project" => projected(alloc, child),
        "partial" => grouped(alloc, &[0], child),
        "partial-all" => grouped(alloc, &[], child),
        "final" => finished(alloc, 1, child),
        "final-all" => finished(alloc, 0, child),
        _ => Err(Fail::new("no step")),
    }
}

/// The body of a leaf and steps over it, with words between blanks. A read reads these rectangles.
#[tactic(auto, using(crate::proofs::BodySteps::ready_here, crate::proofs::BodySteps::ready_after))]
pub fn body_of(
    alloc: Global,
    ground: &Ground,
    corners: &[Corners],
    text: &str,
) -> Result<Body, Fail>
    requires table { HasTable ground.now.tables }
    requires stage { Holds (tables_of ground.now.tables) ground.now.outputs ground.now.maps ground.now.reducers ground.now.width }
    ensures { IfOk result (λ body. Ready (tables_of ground.now.tables) ground.now.outputs ground.now.maps body.plan body.parts body.width) }
{
    let mut body = one_row();
    'words: for (i, word) in text.split(' ').enumerate() {
        body = if i == 0 {
            leaf(alloc, ground, corners, word)?
        } else {
            step(alloc, word, body)?
        };
    }
    Ok(body)
}

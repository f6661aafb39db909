//! The rectangles, run by run.

ghost use Rattle.std.specs.Prelude.{◌+◌, ◌++◌, ◌<◌, ◌≡◌, ◌≤◌, ◌^◌, IfOk, OnOk, flat_map, map};
ghost use Rattle.std.specs.List.{range_with_len};
ghost use Rattle.aqe_local_read.specs.LocalRects.{
  cuts_of_map,
  local_rects,
  rect_of_maps,
  rects_of_map,
  run_start,
  runs,
};

use aqe_base::{Memory, Rect, Rects};
use std::alloc::Global;

/// Where run `i` begins when `n` things are cut into `k` runs; run `k` begins behind all.
#[tactic(auto, using(crate::proofs::Runs::start_le, crate::proofs::Runs::product_le))]
fn run_start(n: u32, k: u32, i: u32) -> u32
    requires parts { 1 ≤ k }
    requires inside { i ≤ k }
    ensures { result ≡ run_start n k i }
{
    i * (n / k) + i.min(n % k)
}

/// The rectangles of runs of maps, each with all reducers.
fn rects_of_maps(alloc: Global, maps: u32, reducers: u32, wanted: u32) -> Result<Rects, Memory>
    requires { 1 ≤ wanted }
    ensures { IfOk result (λ rects. rects ≡ map (rect_of_maps reducers) (runs maps wanted)) }
{
    let mut rects = Rects::new(alloc);
    'runs: for i in 0..wanted {
        rects.push(Rect {
            m0: run_start(maps, wanted, i),
            m1: run_start(maps, wanted, i + 1),
            r0: 0,
            r1: reducers,
        })?;
    }
    Ok(rects)
}

/// Adds the rectangles of one map, each with a run of reducers.
fn add_map(rects: &mut Rects, m: u32, reducers: u32, cuts: u32) -> Result<(), Memory>
    requires map { m + 1 < 2 ^ 32 }
    requires parts { 1 ≤ cuts }
    ensures { OnOk result (rects.new ≡ rects.old ++ rects_of_map reducers cuts m) }
{
    'runs: for i in 0..cuts {
        rects.push(Rect {
            m0: m,
            m1: m + 1,
            r0: run_start(reducers, cuts, i),
            r1: run_start(reducers, cuts, i + 1),
        })?;
    }
    Ok(())
}

/// The rectangles of each map in turn.
fn rects_by_map(alloc: Global, maps: u32, reducers: u32, cuts: u32) -> Result<Rects, Memory>
    requires { 1 ≤ cuts }
    ensures { IfOk result (λ rects. rects ≡ flat_map (rects_of_map reducers cuts) (range_with_len 0 maps)) }
{
    let mut rects = Rects::new(alloc);
    'maps: for m in 0..maps {
        add_map(&mut rects, m, reducers, cuts)?;
    }
    Ok(rects)
}

/// Into how many runs the reducers of each map are cut.
fn cuts_of_map(maps: u32, reducers: u32, wanted: u32) -> u32
    requires maps { 1 ≤ maps }
    requires reducers { 1 ≤ reducers }
    ensures value { result ≡ cuts_of_map maps reducers wanted }
    ensures some { 1 ≤ result }
{
    reducers.min((wanted / maps).max(1))
}

/// The rectangles of a local read of a stage, of which about `wanted` are wanted: runs of maps with all reducers where there are as many maps,
/// else runs of the reducers of each map.
pub fn local_rects(alloc: Global, maps: u32, reducers: u32, wanted: u32) -> Result<Rects, Memory>
    requires maps { 1 ≤ maps }
    requires reducers { 1 ≤ reducers }
    requires wanted { 1 ≤ wanted }
    ensures { IfOk result (λ rects. rects ≡ local_rects maps reducers wanted) }
{
    if wanted <= maps {
        rects_of_maps(alloc, maps, reducers, wanted)
    } else {
        rects_by_map(alloc, maps, reducers, cuts_of_map(maps, reducers, wanted))
    }
}

//! Runs of a region, joined and cut. No byte is copied.
ghost use Rattle.std.specs.Prelude.{◌≡◌, ◌+◌, ◌*◌, ◌≤◌, ◌++◌, ◌∷◌, [], length};
ghost use Rattle.std.specs.Option.{option_to_list, IfNone};
ghost use Rattle.std.specs.Vec.{vec_capacity};
ghost use Rattle.commit_id.specs.Shape.{as_shape, IsShape};
ghost use Rattle.sector_pool.specs.Run.{sectors_of};
ghost use Rattle.journal_ring.specs.Runs.{bytes_of, CutsUp, FollowOn, IsCut, IsOne};

use commit_id::Shape;
use image_model::META_SECTORS;
use sector_pool::Run;

/// Makes one run of all, from the last one on. The lists keep their room.
pub(crate) fn join_all<'p>(before: &mut Vec<Run<'p>>, behind: &mut Vec<Run<'p>>)
    requires some { 1 ≤ length before.old.items }
    requires follow { FollowOn (before.old.items ++ behind.old.items) }
    requires room { 1 ≤ vec_capacity before.old }

    ensures one { IsOne before.new.items behind.new.items }
    ensures bytes { bytes_of (before.new.items ++ behind.new.items)
        ≡ bytes_of (before.old.items ++ behind.old.items) }
    ensures capacity { (vec_capacity before.new ≡ vec_capacity before.old)
        × (vec_capacity behind.new ≡ vec_capacity behind.old) }
{
    let Some(last) = pop_last(before, behind) else {
        return;
    };
    let all = joined(before, behind, last);
    before.push_reserved(all);
}

/// The runs of two lists, and the one behind them, as one. The lists are empty then, and keep their room.
fn joined<'p>(before: &mut Vec<Run<'p>>, behind: &mut Vec<Run<'p>>, last: Run<'p>) -> Run<'p>
    requires follow { FollowOn ((before.old.items ++ behind.old.items) ++ last ∷ []) }

    ensures bytes { result.bytes ≡ bytes_of ((before.old.items ++ behind.old.items) ++ last.entry ∷ []) }
    ensures empty { (before.new.items ≡ []) × (behind.new.items ≡ []) }
    ensures capacity { (vec_capacity before.new ≡ vec_capacity before.old)
        × (vec_capacity behind.new ≡ vec_capacity behind.old) }
{
    let mut all = last;
    while let Some(front) = pop_last(before, behind) {
        all = match front.join(all) {
            Ok(run) => run,
            Err((_, back)) => back,
        };
    }
    all
}

/// The last run of two lists. None where both are empty.
fn pop_last<'p>(before: &mut Vec<Run<'p>>, behind: &mut Vec<Run<'p>>) -> Option<Run<'p>>
    ensures items { before.old.items ++ behind.old.items
        ≡ (before.new.items ++ behind.new.items) ++ option_to_list result }
    ensures none { IfNone result ((before.new.items ≡ []) × (behind.new.items ≡ [])) }
    ensures capacity { (vec_capacity before.new ≡ vec_capacity before.old)
        × (vec_capacity behind.new ≡ vec_capacity behind.old) }
{
    match behind.pop() {
        Some(run) => Some(run),
        None => before.pop(),
    }
}

/// Cuts a section out of the one run of all: what lies before it and its metadata sectors are the runs before, the
/// data sectors of each of its entries and what lies behind it are those behind.
pub(crate) fn cut_out<'p>(
    before: &mut Vec<Run<'p>>,
    behind: &mut Vec<Run<'p>>,
    shape: Shape,
    section: u64,
)
    requires one { IsOne before.old.items behind.old.items }
    requires shape { IsShape shape }
    requires inside { 512 * ((section + 1) * shape.sectors)
        ≤ length (bytes_of (before.old.items ++ behind.old.items)) }
    requires room_before { 2 ≤ vec_capacity before.old }
    requires room_behind { shape.entries + 1 ≤ vec_capacity behind.old }

    ensures cut { IsCut (as_shape shape) section before.new.items behind.new.items }
    ensures follow { FollowOn (before.new.items ++ behind.new.items) }
    ensures bytes { bytes_of (before.new.items ++ behind.new.items)
        ≡ bytes_of (before.old.items ++ behind.old.items) }
    ensures capacity { (vec_capacity before.new ≡ vec_capacity before.old)
        × (vec_capacity behind.new ≡ vec_capacity behind.old) }
{
    let Some(all) = before.pop() else {
        return;
    };
    let (front, rest) = all.split(section * shape.sectors);
    let (metadata, rest) = rest.split(META_SECTORS as u64);
    before.push_reserved(front);
    before.push_reserved(metadata);
    let back = cut_up(behind, rest, shape.spb, shape.entries);
    behind.push_reserved(back);
}

/// Cuts a run into `count` runs of `each` sectors, which it puts behind the others, and hands out what is left.
fn cut_up<'p>(runs: &mut Vec<Run<'p>>, run: Run<'p>, each: u64, count: u64) -> Run<'p>
    requires room { length runs.old.items + count ≤ vec_capacity runs.old }
    requires sectors { count * each ≤ sectors_of run }

    ensures cut { CutsUp each count runs.old.items runs.new.items run.entry result }
    ensures capacity { vec_capacity runs.new ≡ vec_capacity runs.old }
{
    let mut rest = run;
    for _ in 0..count {
        let (front, back) = rest.split(each);
        runs.push_reserved(front);
        rest = back;
    }
    rest
}

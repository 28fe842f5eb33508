//! Where the sections of a ring lie that are not free.
ghost use Rattle.std.specs.Prelude.{◌≡◌, ◌+◌, ◌-◌, ◌^◌, ◌<◌, ◌≤◌, ◌==◌, if◌then◌else◌};
ghost use Rattle.image_model.specs.Walk.{later};
ghost use Rattle.journal_ring.specs.Batch.{batch_of, committed_marks, next_of};
ghost use Rattle.journal_ring.specs.Sections.{wrap};

/// The committed sections, from the oldest one on, and behind them the opened ones.
#[derive(Clone, Copy, Drop)]
pub(crate) struct Marks {
    /// The oldest section that is not free.
    pub(crate) first: u64,
    /// How many are committed and not free.
    pub(crate) committed: u64,
    /// How many are opened and not committed.
    pub(crate) opened: u64,
    /// The number under which the next batch is committed.
    pub(crate) number: u8,
    /// Whether no entry goes into the last opened one any more.
    pub(crate) closed: bool,
}

/// The section that lies here in a ring of so many.
pub(crate) fn wrap(sections: u64, at: u64) -> u64
    requires at { at < sections + sections }

    ensures section { result ≡ wrap sections at }
    ensures inside { result < sections }
{
    if at < sections { at } else { at - sections }
}

/// How far behind the oldest one a section lies.
pub(crate) fn position(sections: u64, marks: Marks, section: u64) -> u64
    requires sections { sections < 2 ^ 63 }
    requires first { marks.first < sections }
    requires section { section < sections }

    ensures { result ≡ wrap sections (section + (sections - marks.first)) }
{
    wrap(sections, section + (sections - marks.first))
}

/// The commit number after this one.
///
/// Source: Linux, `drivers/md/dm-integrity.c`, `next_commit_seq`.
pub(crate) fn next_number(number: u8) -> u8
    requires number { number < 4 }

    ensures next { result ≡ later 1 number }
    ensures number { result < 4 }
{
    (number + 1) % 4
}

/// Where the next batch begins.
pub(crate) fn next(sections: u64, marks: Marks) -> u64
    requires sections { sections < 2 ^ 63 }
    requires first { marks.first < sections }
    requires fits { marks.committed ≤ sections }

    ensures next { result ≡ next_of sections marks }
    ensures inside { result < sections }
{
    wrap(sections, marks.first + marks.committed)
}

/// How many sections the next batch has: the opened ones, up to the journal's end.
pub(crate) fn batch(sections: u64, marks: Marks) -> u64
    requires sections { sections < 2 ^ 63 }
    requires first { marks.first < sections }
    requires fits { marks.committed ≤ sections }

    ensures { result ≡ batch_of sections marks }
{
    marks.opened.min(sections - next(sections, marks))
}

/// Where the sections lie once the next batch is committed.
pub(crate) fn committed(sections: u64, marks: Marks) -> Marks
    requires sections { sections < 2 ^ 63 }
    requires first { marks.first < sections }
    requires fits { marks.committed + marks.opened ≤ sections }
    requires number { marks.number < 4 }

    ensures { result ≡ committed_marks sections marks }
{
    let batch = batch(sections, marks);
    Marks {
        first: marks.first,
        committed: marks.committed + batch,
        opened: marks.opened - batch,
        number: number_behind(sections, next(sections, marks) + batch, marks.number),
        closed: true,
    }
}

/// The commit number behind a batch that ends here.
fn number_behind(sections: u64, end: u64, number: u8) -> u8
    requires number { number < 4 }

    ensures { result ≡ (if end == sections then later 1 number else number) }
{
    if end == sections {
        next_number(number)
    } else {
        number
    }
}

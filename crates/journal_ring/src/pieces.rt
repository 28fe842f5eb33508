//! The sections of a ring, as runs of one region.
//!
//! All of them are one run, or one section is cut: then its metadata sectors and the data sectors of each of its
//! entries are runs of their own. No byte is copied when they are cut and joined.
ghost use Rattle.std.specs.Prelude.{◌≡◌, ◌≢◌, ℕ, ◌+◌, ◌*◌, ◌^◌, ◌<◌, ◌≤◌, [], length, replicate, take, None, Some};
ghost use Rattle.std.specs.Vec.{vec_capacity};
ghost use Rattle.commit_id.specs.Shape.{as_shape, IsShape};
ghost use Rattle.image_model.specs.Geometry.{journal_sectors, section_at, section_entries};
ghost use Rattle.image_model.specs.Section.{Entry, parts_of, section_bytes};
ghost use Rattle.image_model.specs.Entries.{BearsNumber, HoldsEntries};
ghost use Rattle.journal_section.specs.Pieces.{PutsEntry};
ghost use Rattle.journal_ring.specs.Sections.{ChangesSection};

use crate::pool::{clear_section, section, sections};
use crate::putting::put_in;
use crate::runs::{cut_out, join_all};
use commit_id::Shape;
use hmac_tag::Tag;
use image_model::{META_SECTORS, SECTOR_SIZE};
use layout::Geometry;
use sector_pool::Run;
use std::marker::Model;

/// The run of what lies before the section that is cut, or of all.
const FRONT: usize = 0;

/// The run of the metadata sectors of the section that is cut.
const METADATA: usize = 1;

/// The sections of a journal, in memory.
#[derive(Drop)]
pub(crate) struct Pieces<'p> {
    geometry: Geometry,
    /// All sections as one run; or what lies before the section that is cut, and its metadata sectors.
    before: Vec<Run<'p>>,
    /// The data sectors of each entry of the section that is cut, and what lies behind it.
    behind: Vec<Run<'p>>,
    /// The section that is cut.
    cut: Option<u64>,
}

impl<'p> Model for Pieces<'p> {
    ghost use Rattle.journal_ring.specs.Runs.{Sections};

    ghost Value = { Sections };

    ghost use Rattle.std.specs.Vec.{vec_capacity};
    ghost use Rattle.journal_ring.specs.Runs.{sections_of, IsPieces};

    ghost view = { λ pieces. sections_of pieces.geometry pieces.before.items pieces.behind.items pieces.cut };

    ghost invariant = { λ pieces. IsPieces pieces.geometry pieces.before.items pieces.behind.items
        (vec_capacity pieces.before) (vec_capacity pieces.behind) pieces.cut };
}

impl<'p> Pieces<'p> {
    ghost use Rattle.journal_ring.specs.Runs.{batch_in, with_cut};

    /// The sections of a journal as one run. The lists have room for as many as one section is cut into.
    pub(crate) fn new(
        geometry: Geometry,
        pool: Run<'p>,
        before: Vec<Run<'p>>,
        behind: Vec<Run<'p>>,
    ) -> Pieces<'p>
        requires pool { length pool.bytes ≡ 512 * journal_sectors geometry }
        requires before { (before.items ≡ []) × (2 ≤ vec_capacity before) }
        requires behind { (behind.items ≡ []) × (section_entries geometry.shape + 1 ≤ vec_capacity behind) }

        ensures geometry { result.geometry ≡ geometry }
        ensures bytes { result.bytes ≡ pool.entry.bytes }
    {
        let _ = geometry.blocks();
        let mut before = before;
        before.push_reserved(pool);
        Pieces {
            geometry,
            before,
            behind,
            cut: None,
        }
    }

    /// How many sections there are.
    pub(crate) fn sections(&self) -> u64
        ensures { result ≡ self.now.geometry.sections }
    {
        self.geometry.sections()
    }

    /// What a section looks like.
    pub(crate) fn shape(&self) -> Shape
        ensures shape { as_shape result ≡ self.now.geometry.shape }
        ensures is_shape { IsShape result }
    {
        self.geometry.shape()
    }

    /// The sector of the disk where a section begins.
    pub(crate) fn section_at(&self, section: u64) -> u64
        requires section { section < self.now.geometry.sections }

        ensures { result ≡ section_at self.now.geometry section }
    {
        self.geometry.section_at(section)
    }

    /// Makes one run of all sections.
    pub(crate) fn join(&mut self)
        ensures { self.new ≡ with_cut self.old None }
    {
        join_all(&mut self.before, &mut self.behind);
        self.cut = None;
    }

    /// Cuts section `i`, unless it is cut.
    pub(crate) fn cut(&mut self, i: u64)
        requires section { i < self.old.geometry.sections }

        ensures { self.new ≡ with_cut self.old (Some i) }
    {
        if self.cut == Some(i) {
            return;
        }
        join_all(&mut self.before, &mut self.behind);
        let shape = self.geometry.shape();
        cut_out(&mut self.before, &mut self.behind, shape, i);
        self.cut = Some(i);
    }

    /// Makes section `i` empty, under this commit number, and cuts it.
    pub(crate) fn open(&mut self, i: u64, number: u8)
        requires section { i < self.old.geometry.sections }
        requires number { number < 4 }

        ensures geometry { self.new.geometry ≡ self.old.geometry }
        ensures number { BearsNumber self.old.geometry.shape i number
            (section_bytes self.old.geometry.shape self.new.bytes i) }
        ensures entries { HoldsEntries self.old.geometry.shape
            (replicate (section_entries self.old.geometry.shape) None)
            (section_bytes self.old.geometry.shape self.new.bytes i) }
        ensures others { ChangesSection self.old.geometry.shape i self.old.bytes self.new.bytes }
    {
        self.join();
        self.clear(i, number);
        self.cut(i);
    }

    /// Makes section `i` empty, under this commit number. All sections are one run.
    fn clear(&mut self, i: u64, number: u8)
        requires joined { self.old.cut ≡ None }
        requires section { i < self.old.geometry.sections }
        requires number { number < 4 }

        ensures geometry { self.new.geometry ≡ self.old.geometry }
        ensures number { BearsNumber self.old.geometry.shape i number
            (section_bytes self.old.geometry.shape self.new.bytes i) }
        ensures entries { HoldsEntries self.old.geometry.shape
            (replicate (section_entries self.old.geometry.shape) None)
            (section_bytes self.old.geometry.shape self.new.bytes i) }
        ensures others { ChangesSection self.old.geometry.shape i self.old.bytes self.new.bytes }
    {
        let shape = self.geometry.shape();
        let all = &mut self.before[FRONT];
        clear_section(all.bytes_mut(), shape, i, number);
    }

    /// Puts entry `n` into section `i`. The section is cut first, unless it is.
    pub(crate) fn put(&mut self, i: u64, n: u64, sector: u64, block: &[u8], tag: &Tag)
        requires section { i < self.old.geometry.sections }
        requires n { n < section_entries self.old.geometry.shape }
        requires sector { sector < 2 ^ 48 }
        requires block { length block.now ≡ 512 * self.old.geometry.shape.spb }
        requires tag { length tag.now ≡ self.old.geometry.shape.tag_size }

        ensures geometry { self.new.geometry ≡ self.old.geometry }
        ensures put { let entry : Entry = record { sector = sector; bytes = block.now; tag = tag.now } in
            PutsEntry self.old.geometry.shape n entry (section_bytes self.old.geometry.shape self.old.bytes i)
            (section_bytes self.old.geometry.shape self.new.bytes i) }
        ensures others { ChangesSection self.old.geometry.shape i self.old.bytes self.new.bytes }
    {
        self.cut(i);
        self.put_here(n, sector, block, tag);
    }

    /// Puts entry `n` into the section that is cut.
    fn put_here(&mut self, n: u64, sector: u64, block: &[u8], tag: &Tag)
        requires cut { (i : ℕ) × (self.old.cut ≡ Some i) }
        requires n { n < section_entries self.old.geometry.shape }
        requires sector { sector < 2 ^ 48 }
        requires block { length block.now ≡ 512 * self.old.geometry.shape.spb }
        requires tag { length tag.now ≡ self.old.geometry.shape.tag_size }

        ensures geometry { self.new.geometry ≡ self.old.geometry }
        ensures put { let entry : Entry = record { sector = sector; bytes = block.now; tag = tag.now } in
            (i : ℕ) → self.old.cut ≡ Some i
            → PutsEntry self.old.geometry.shape n entry (section_bytes self.old.geometry.shape self.old.bytes i)
            (section_bytes self.old.geometry.shape self.new.bytes i) }
        ensures others { (i : ℕ) → self.old.cut ≡ Some i
            → ChangesSection self.old.geometry.shape i self.old.bytes self.new.bytes }
    {
        let shape = self.geometry.shape();
        put_in(
            &mut self.before,
            &mut self.behind,
            shape,
            n,
            sector,
            block,
            tag,
        );
    }

    /// The metadata sectors of section `i`.
    pub(crate) fn metadata(&self, i: u64) -> &[u8]
        requires section { i < self.now.geometry.sections }

        ensures { result.now
            ≡ take 4096 (section_bytes self.now.geometry.shape self.now.bytes i) }
    {
        if self.cut == Some(i) {
            return self.before[METADATA].bytes();
        }
        &self.section(i)[..META_SECTORS * SECTOR_SIZE]
    }

    /// The data sectors of entry `n` of section `i`.
    pub(crate) fn data(&self, i: u64, n: u64) -> &[u8]
        requires section { i < self.now.geometry.sections }
        requires n { n < section_entries self.now.geometry.shape }

        ensures { result.now ≡ parts_of self.now.geometry.shape
            (section_bytes self.now.geometry.shape self.now.bytes i) n }
    {
        if self.cut == Some(i) {
            return self.behind[n as usize].bytes();
        }
        data_in(self.section(i), self.geometry.shape(), n)
    }

    /// The bytes of section `i`, which is not cut.
    fn section(&self, i: u64) -> &[u8]
        requires section { i < self.now.geometry.sections }
        requires whole { self.now.cut ≢ Some i }

        ensures { result.now ≡ section_bytes self.now.geometry.shape self.now.bytes i }
    {
        let shape = self.geometry.shape();
        match self.cut {
            Some(cut) if cut < i => {
                let back = &self.behind[shape.entries as usize];
                section(back.bytes(), shape, i - cut - 1)
            }
            _ => section(self.before[FRONT].bytes(), shape, i),
        }
    }

    /// The bytes of `count` sections, from section `from` on. All sections are one run.
    pub(crate) fn batch(&self, from: u64, count: u64) -> &[u8]
        requires joined { self.now.cut ≡ None }
        requires inside { from + count ≤ self.now.geometry.sections }

        ensures { result.now ≡ batch_in self.now from count }
    {
        sections(
            self.before[FRONT].bytes(),
            self.geometry.shape(),
            from,
            count,
        )
    }
}

/// The data sectors of entry `n` of a section.
fn data_in(section: &[u8], shape: Shape, n: u64) -> &[u8]
    requires section { length section.now ≡ 512 * shape.sectors }
    requires shape { IsShape shape }
    requires n { n < shape.entries }

    ensures { result.now ≡ parts_of (as_shape shape) section.now n }
{
    let size = SECTOR_SIZE * shape.spb as usize;
    let from = SECTOR_SIZE * META_SECTORS + size * n as usize;
    &section[from..from + size]
}

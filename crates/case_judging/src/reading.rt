//! Reads of all blocks of what is left, each alone or all by one line, and what they are to print.
use crate::Wrong;
use crate::form::{Form, form_of, run_at};
use crate::judging::Told;
use std::alloc::{AllocError, Global};

/// A script that reads each block alone.
pub fn reads(alloc: Global, form: &Form) -> Result<Vec<u8>, AllocError> {
    let mut script = Vec::new(alloc);
    for block in 0..form.blocks {
        let line = format!(in alloc; "read {block} 1\n")?;
        script.extend_from_slice(line.as_bytes())?;
    }
    Ok(script)
}

/// A script that reads all blocks by one line.
pub fn read_of_all(alloc: Global, form: &Form) -> Result<Vec<u8>, AllocError> {
    let blocks = form.blocks;
    let line = format!(in alloc; "read 0 {blocks}\n")?;
    Vec::from_slice(alloc, line.as_bytes())
}

/// The bytes of a disk, and of each block the tag that its data have, and what a read prints that finds this tag.
#[derive(Drop)]
pub struct Known {
    pub form: Form,
    bytes: Vec<u8>,
    digests: Vec<[u8; 32]>,
    replies: Vec<String>,
    /// The data of all blocks, and what a run prints that reads them by one line.
    data: Vec<u8>,
    reply_of_all: String,
}

impl Known {
    /// Computes these of a disk with these bytes, of an image of a form. Of one that is no image they are of no use.
    pub fn new(alloc: Global, form: Form, bytes: Vec<u8>) -> Result<Known, AllocError> {
        let mut digests = Vec::new(alloc);
        let mut replies = Vec::new(alloc);
        for block in 0..form.blocks {
            let data = form.data_of(&bytes, block);
            digests.push(form.digest_of(block, data))?;
            replies.push(reply_of(alloc, block, data)?)?;
        }
        let data = form.data_of_all(alloc, &bytes)?;
        let reply_of_all = reply_of_all(alloc, &form, &data)?;
        Ok(Known {
            form,
            bytes,
            digests,
            replies,
            data,
            reply_of_all,
        })
    }

    /// The bytes of the disk.
    pub fn bytes(&self) -> &[u8] {
        &self.bytes
    }

    /// Whether these are the bytes of an image of the same form whose blocks all have the tags of their data.
    pub fn is_whole(&self, left: &[u8]) -> bool {
        let form = &self.form;
        form.blocks > 0
            && run_at(left, 0, 64) == run_at(&self.bytes, 0, 64)
            && (0..form.blocks).all(|block| self.has_its_tag(left, block))
    }

    /// Whether a block of another disk has the tag of its data.
    fn has_its_tag(&self, left: &[u8], block: u64) -> bool {
        let (digest, _) = self.digest_of(block, self.form.data_of(left, block));
        self.form.tag_of(left, block) == self.form.tag_in(&digest)
    }

    /// The digest that a block of another disk has by its data, and whether these are the disk's own.
    fn digest_of(&self, block: u64, data: &[u8]) -> ([u8; 32], bool) {
        match self.digests.get(block as usize) {
            Some(digest) if data == self.form.data_of(&self.bytes, block) => (*digest, true),
            _ => (self.form.digest_of(block, data), false),
        }
    }

    /// Whether a line is what a read of a block prints that finds the right tag, where its data are the disk's own.
    fn is_reply(&self, block: u64, line: &str) -> bool {
        match self.replies.get(block as usize) {
            Some(reply) => line == reply.as_str(),
            None => false,
        }
    }
}

/// Looks at what the reads of all blocks have told of what is left, beside its bytes.
pub fn judge_reads(alloc: Global, base: &Known, left: &[u8], told: Told<'_>) -> Result<(), Wrong> {
    if form_of(left).blocks == 0 {
        if told.status != 3 || !told.text.starts_with("fault image ") {
            return Err(Wrong::Run("what is left is no image, and is read"));
        }
        return Ok(());
    }
    let mut status = 0;
    for (line, block) in told.text.split_inclusive('\n').zip(0..base.form.blocks) {
        if !judge_read(alloc, base, left, block, line)? {
            status = 1;
        }
    }
    if told.status != status || !told.text.ends_with("\nclosed\n") {
        return Err(Wrong::Run("reads of what is left do not come to their end"));
    }
    Ok(())
}

/// Looks at what the read of all blocks by one line has told of what is left, where each has the tag of its data.
pub fn judge_read_of_all(
    alloc: Global,
    base: &Known,
    left: &[u8],
    told: Told<'_>,
) -> Result<(), Wrong> {
    let data = base.form.data_of_all(alloc, left)?;
    let is_right = if data == base.data {
        told.text == base.reply_of_all.as_str()
    } else {
        told.text == reply_of_all(alloc, &base.form, &data)?.as_str()
    };
    if told.status != 0 || !is_right {
        return Err(Wrong::Run("a read of all blocks does not give what is left"));
    }
    Ok(())
}

/// Looks at what the read of a block has told, and tells whether the block has the tag of its data.
fn judge_read(
    alloc: Global,
    base: &Known,
    left: &[u8],
    block: u64,
    line: &str,
) -> Result<bool, Wrong> {
    let form = &base.form;
    let (digest, is_known) = base.digest_of(block, form.data_of(left, block));
    let is_right = form.tag_of(left, block) == form.tag_in(&digest);
    if is_right && is_known && base.is_reply(block, line) {
        return Ok(true);
    }
    if !is_reply(alloc, form, left, block, &digest, line)? {
        return Err(Wrong::Block {
            block,
            what: "a read does not give what is left",
        });
    }
    Ok(is_right)
}

/// Whether a line is what a read of a block prints, where its data have this tag.
fn is_reply(
    alloc: Global,
    form: &Form,
    image: &[u8],
    block: u64,
    digest: &[u8; 32],
    line: &str,
) -> Result<bool, AllocError> {
    let stored = form.tag_of(image, block);
    let computed = form.tag_in(digest);
    let wanted = if stored == computed {
        reply_of(alloc, block, form.data_of(image, block))?
    } else {
        let stored = hex::encode(alloc, stored)?;
        let computed = hex::encode(alloc, computed)?;
        format!(in alloc; "fault block {block} stored {stored} computed {computed}\n")?
    };
    Ok(line == wanted.as_str())
}

/// What a read of a block prints that finds the right tag.
fn reply_of(alloc: Global, block: u64, data: &[u8]) -> Result<String, AllocError> {
    let stretches = stretches_of(alloc, data)?;
    format!(in alloc; "ok read {block} 1 {stretches}\n")
}

/// What a run prints that reads all blocks by one line and finds the right tags.
fn reply_of_all(alloc: Global, form: &Form, data: &[u8]) -> Result<String, AllocError> {
    let blocks = form.blocks;
    let stretches = stretches_of(alloc, data)?;
    format!(in alloc; "ok read 0 {blocks} {stretches}\nclosed\n")
}

/// The stretches of like bytes.
fn stretches_of(alloc: Global, bytes: &[u8]) -> Result<String, AllocError> {
    let mut out = String::new(alloc);
    let mut last: Option<u8> = None;
    for (from, byte) in bytes.iter().enumerate() {
        if last != Some(*byte) {
            last = Some(*byte);
            put_stretch(alloc, &mut out, bytes.get(from..).unwrap_or(&[]), *byte)?;
        }
    }
    Ok(out)
}

/// Puts the stretch of this byte at the front of some bytes.
fn put_stretch(alloc: Global, out: &mut String, bytes: &[u8], byte: u8) -> Result<(), AllocError> {
    let count = count_alike(bytes, byte);
    let comma = if out.is_empty() { "" } else { "," };
    let stretch = format!(in alloc; "{comma}{byte:02x}*{count}")?;
    out.push_str(stretch.as_str())
}

/// How many bytes at the front are this one.
fn count_alike(bytes: &[u8], byte: u8) -> usize {
    let mut count = 0usize;
    for other in bytes {
        if *other != byte {
            break;
        }
        count = count.saturating_add(1);
    }
    count
}

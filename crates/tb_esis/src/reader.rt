//! Reading: one pass over the lines, which a draft of the document takes up.

ghost use Rattle.std.specs.Prelude.{◌≡◌, ◌<◌, ◌≤◌, ◌+◌, ◌*◌, ◌∷◌, ◌++◌, true, length, IfOk, IfSome, OnOk};
ghost use Rattle.std.specs.Option.{option_map};
ghost use Rattle.tb_tree.specs.Sound.{is_empty_list};
ghost use Rattle.tb_tree.specs.Escapes.{unescaped};
ghost use Rattle.tb_tree.specs.Making.{Made, nothing_made};
ghost use Rattle.tb_tree.specs.Drafts.{HasRoom, size_of, depth_of};
ghost use Rattle.tb_tree.specs.Printed.{escaped};
ghost use Rattle.tb_esis.specs.Lines.{opens, closes, attribute, characters, conforms, line_of};
ghost use Rattle.tb_esis.specs.Readers.{weight, are_named, IsReading, MayClose, ReadsLine, TakesLine, TakesData};

use crate::EsisFault;
use crate::line::{Line, is_implied, is_name, line_of};
use memchr::memchr;
use std::alloc::{AllocError, Global};
use tb_tree::{Draft, next_line, push_unescaped};

/// Elements that may be open at once.
const MOST_LEVELS: usize = 512;

/// What has been made of the lines so far.
#[derive(Drop)]
pub struct Reader {
    pub draft: Draft,
}

impl Reader {
    /// Nothing made yet, with room for the document of so many bytes of lines.
    pub fn with_capacity(alloc: Global, bytes: usize) -> Result<Reader, AllocError>
        ensures reading { IfOk result (λ reader. IsReading reader nothing_made) }
        ensures empty { IfOk result (λ reader. size_of reader.draft ≡ 0) }
    {
        Ok(Reader {
            draft: Draft::with_capacity(alloc, bytes)?,
        })
    }

    /// What has been made.
    pub fn into_draft(self) -> Draft
        ensures { result ≡ self.draft }
    {
        let Reader { draft } = self;
        draft
    }

    /// Reads the first of the lines, which has the number, from 1. Gives the bytes behind it, or none where no
    /// line is left.
    pub fn take<'b>(
        &mut self,
        lines: &'b [u8],
        number: u32,
        scratch: &mut Vec<u8>,
    ) -> Result<Option<&'b [u8]>, EsisFault>
        requires room { HasRoom self.old.draft (4 * length lines.now) }
        ensures read { (m : Made) → IsReading self.old m → are_named m.frames ≡ true → TakesLine lines.now number m self.new result }
        ensures grown { IfOk result (λ behind. IfSome behind (λ rest.
            size_of self.new.draft + 4 * length rest.now ≤ size_of self.old.draft + 4 * length lines.now)) }
    {
        if let Some((name, behind)) = self.known_end(lines) {
            self.draft.end(name)?;
            return Ok(Some(behind));
        }
        let Some((line, behind)) = next_line(lines) else {
            return Ok(None);
        };
        self.read(line, number, scratch)?;
        Ok(Some(behind))
    }

    /// The innermost element's name and the bytes behind its end, where this comes next and may stand there. Its
    /// name is known, so that no end of a line is searched.
    fn known_end<'b>(&self, lines: &'b [u8]) -> Option<(&'b [u8], &'b [u8])>
        ensures line { IfSome result (λ found. lines.now ≡ 41 ∷ (found.0.now ++ 10 ∷ found.1.now)) }
        ensures open { IfSome result (λ found. 0 < depth_of self.now.draft) }
        ensures end { (m : Made) → IsReading self.now m → IfSome result (λ found. MayClose m found.0.now) }
    {
        if self.draft.is_waiting() {
            return None;
        }
        self.draft.next_end(lines)
    }

    /// Reads the line with the number, from 1.
    fn read(&mut self, line: &[u8], number: u32, scratch: &mut Vec<u8>) -> Result<(), EsisFault>
        requires room { HasRoom self.old.draft (4 * length line.now) }
        ensures read { (m : Made) → IsReading self.old m → ReadsLine (line_of line.now) number m self.new result }
        ensures grown { OnOk result (size_of self.new.draft ≤ size_of self.old.draft + 4 * length line.now) }
    {
        match line_of(line) {
            Line::Opens(name) => self.open(name, number),
            Line::Closes(name) => self.close(name, number),
            Line::Attribute(name, kind, raw) => self.wait(name, kind, raw, number, scratch),
            Line::Characters(raw) => self.go_on(raw, number, scratch),
            Line::Conforms => self.conform(number),
            Line::PassedOver => Ok(()),
        }
    }

    fn open(&mut self, name: &[u8], number: u32) -> Result<(), EsisFault>
        requires room { HasRoom self.old.draft (weight (opens name.now)) }
        ensures read { (m : Made) → IsReading self.old m → ReadsLine (opens name.now) number m self.new result }
        ensures grown { OnOk result (size_of self.new.draft ≤ size_of self.old.draft + weight (opens name.now)) }
    {
        if !is_name(name) {
            return Err(EsisFault::BadName(number));
        }
        let depth = self.draft.depth();
        if self.draft.has_begun() && depth == 0 {
            return Err(EsisFault::SecondRoot(number));
        }
        if depth == MOST_LEVELS {
            return Err(EsisFault::TooDeep(number));
        }
        self.draft.start(name)?;
        Ok(())
    }

    fn close(&mut self, name: &[u8], number: u32) -> Result<(), EsisFault>
        requires room { HasRoom self.old.draft (weight (closes name.now)) }
        ensures read { (m : Made) → IsReading self.old m → ReadsLine (closes name.now) number m self.new result }
        ensures grown { OnOk result (size_of self.new.draft ≤ size_of self.old.draft + weight (closes name.now)) }
    {
        if self.draft.is_waiting() {
            return Err(EsisFault::BadAttribute(number));
        }
        if !self.draft.is_innermost(name) {
            return Err(EsisFault::WrongEnd(number));
        }
        self.draft.end(name)?;
        Ok(())
    }

    fn wait(
        &mut self,
        name: &[u8],
        kind: &[u8],
        raw: &[u8],
        number: u32,
        scratch: &mut Vec<u8>,
    ) -> Result<(), EsisFault>
        requires room { HasRoom self.old.draft (weight (attribute name.now kind.now raw.now)) }
        ensures read { (m : Made) → IsReading self.old m → ReadsLine (attribute name.now kind.now raw.now) number m self.new result }
        ensures grown { OnOk result (size_of self.new.draft ≤ size_of self.old.draft + weight (attribute name.now kind.now raw.now)) }
    {
        if !is_name(name) {
            return Err(EsisFault::BadName(number));
        }
        if is_empty(kind) {
            return Err(EsisFault::BadAttribute(number));
        }
        if is_implied(kind) {
            return Ok(());
        }
        if self.draft.is_waiting_for(name) {
            return Err(EsisFault::BadAttribute(number));
        }
        let Some(value) = given(raw, scratch)? else {
            return Err(EsisFault::BadEscape(number));
        };
        self.draft.attribute(name, value)?;
        Ok(())
    }

    fn go_on(&mut self, raw: &[u8], number: u32, scratch: &mut Vec<u8>) -> Result<(), EsisFault>
        requires room { HasRoom self.old.draft (weight (characters raw.now)) }
        ensures read { (m : Made) → IsReading self.old m → ReadsLine (characters raw.now) number m self.new result }
        ensures grown { OnOk result (size_of self.new.draft ≤ size_of self.old.draft + weight (characters raw.now)) }
    {
        let Some(value) = given(raw, scratch)? else {
            return Err(EsisFault::BadEscape(number));
        };
        self.take_data(value, number)
    }

    /// The text goes on with these bytes.
    fn take_data(&mut self, value: &[u8], number: u32) -> Result<(), EsisFault>
        requires room { HasRoom self.old.draft (2 + length (escaped value.now)) }
        ensures read { (m : Made) → IsReading self.old m → TakesData value.now number m self.new result }
        ensures grown { OnOk result (size_of self.new.draft ≤ size_of self.old.draft + (2 + length (escaped value.now))) }
    {
        if self.draft.is_waiting() {
            return Err(EsisFault::BadAttribute(number));
        }
        if self.draft.depth() == 0 && !value.is_empty() {
            return Err(EsisFault::TextOutside(number));
        }
        self.draft.more_text(value)?;
        Ok(())
    }

    /// The tests of a line `C`, and those behind the last line.
    pub fn conform(&self, number: u32) -> Result<(), EsisFault>
        ensures read { (m : Made) → IsReading self.now m → ReadsLine conforms number m self.now result }
    {
        if self.draft.is_waiting() {
            return Err(EsisFault::BadAttribute(number));
        }
        if !self.draft.has_begun() {
            return Err(EsisFault::NoElement(number));
        }
        if self.draft.depth() != 0 {
            return Err(EsisFault::NotEnded(number));
        }
        Ok(())
    }
}

fn is_empty(bytes: &[u8]) -> bool
    ensures { result ≡ is_empty_list bytes.now }
{
    bytes.is_empty()
}

/// What the raw bytes give, which are themselves where they have no escape; none where a backslash among them
/// begins none.
fn given<'b>(raw: &'b [u8], scratch: &'b mut Vec<u8>) -> Result<Option<&'b [u8]>, AllocError>
    ensures { IfOk result (λ given. option_map (λ bytes. bytes.now) given ≡ unescaped raw.now) }
{
    let Some(_at) = memchr(b'\\', raw) else {
        return Ok(Some(raw));
    };
    scratch.clear();
    if !push_unescaped(raw, scratch)? {
        return Ok(None);
    }
    Ok(Some(scratch.as_slice()))
}

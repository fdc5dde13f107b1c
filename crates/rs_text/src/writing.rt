//! A value that is written as lines.

ghost use Rattle.std.specs.Prelude.{List, map};
ghost use Rattle.std.specs.List.{flat_map};
ghost use Rattle.rs_field.specs.Forms.{Appends, Forms, line_text, lines_text};

use rs_key::{NoMemory, Rows};

/// A value that is written as one line.
pub trait Line {
    // The fields of the line.
    ghost line: { Self → Forms };

    /// Appends the line. Where memory runs out a part of it may have been appended.
    fn put_line(&self, out: &mut Vec<u8>) -> Result<(), NoMemory>
        ensures { Appends result out.old out.new (line_text (line self.now)) };
}

/// A value that is written as lines.
pub trait Block {
    // The lines.
    ghost lines: { Self → List Forms };

    /// Appends the lines. Where memory runs out a part of them may have been appended.
    fn put_block(&self, out: &mut Vec<u8>) -> Result<(), NoMemory>
        ensures { Appends result out.old out.new (lines_text (lines self.now)) };
}

/// Appends the lines, one after another.
pub fn put_lines<T: Line>(out: &mut Vec<u8>, rows: &Rows<T>) -> Result<(), NoMemory>
    ensures { Appends result out.old out.new (lines_text (map T.line rows.now)) }
{
    for row in rows.as_slice() {
        row.put_line(out)?;
    }
    Ok(())
}

/// Appends the lines of all, one after another.
pub fn put_blocks<T: Block>(out: &mut Vec<u8>, rows: &Rows<T>) -> Result<(), NoMemory>
    ensures { Appends result out.old out.new (lines_text (flat_map T.lines rows.now)) }
{
    for row in rows.as_slice() {
        row.put_block(out)?;
    }
    Ok(())
}

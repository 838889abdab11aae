//! The words of a line, and the cells of a word.
ghost use Rattle.std.specs.Prelude.{◌≡◌, OnOk};
ghost use Rattle.std.specs.List.{slice_split};
ghost use Rattle.lst_replies.specs.Reading.{is_comma, texts, words_of};

use lst_model::OutOfMemory;

/// Makes `words` the list of the words of a line: the parts between its spaces.
pub(crate) fn split_words<'a>(line: &'a [u8], words: &mut Vec<&'a [u8]>) -> Result<(), OutOfMemory>
    ensures { OnOk result (texts words.new.items ≡ words_of line.now) }
{
    words.clear();
    for part in line.split(|byte| *byte == b' ') {
        words.push(part)?;
    }
    Ok(())
}

/// Makes `cells` the list of the parts of a text between its commas.
pub(crate) fn split_cells<'a>(text: &'a [u8], cells: &mut Vec<&'a [u8]>) -> Result<(), OutOfMemory>
    ensures { OnOk result (texts cells.new.items ≡ slice_split is_comma text.now) }
{
    cells.clear();
    for part in text.split(|byte| *byte == b',') {
        cells.push(part)?;
    }
    Ok(())
}

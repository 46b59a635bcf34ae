// Numbers with commas between them, appended to a line. After an error the line may end anywhere.
ghost use Rattle.std.specs.Prelude.{◌≡◌, ◌++◌, ◌∷◌, OnOk};
ghost use Rattle.sb_transcript.specs.CommaWords.{more_words, comma_words};

use sb_base::{NoMemory, put_decimal};

fn put_more_words(line: &mut Vec<u8>, words: &[u64]) -> Result<(), NoMemory>
    ensures { OnOk result (line.new.items ≡ line.old.items ++ more_words words.now) }
{
    for word in words {
        line.push(b',')?;
        put_decimal(line, *word)?;
    }
    Ok(())
}

/// Appends numbers in decimal with commas between them.
///
/// # Errors
/// `NoMemory` if there was none for them; then a part may have been appended.
pub fn put_comma_words(line: &mut Vec<u8>, words: &[u64]) -> Result<(), NoMemory>
    ensures { OnOk result (line.new.items ≡ line.old.items ++ comma_words words.now) }
{
    let Some((first, more)) = words.split_first() else {
        return Ok(());
    };
    put_decimal(line, *first)?;
    put_more_words(line, more)
}

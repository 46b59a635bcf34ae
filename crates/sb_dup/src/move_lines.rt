// The lines that tell how moves went.
ghost use Rattle.std.specs.Prelude.{◌≡◌, ◌++◌, OnOk};
ghost use Rattle.std.specs.List.{count_by};
ghost use Rattle.sb_dup.specs.MoveLines.{answer_text, giver_text, is_given, lines_of_moves, move_line, move_lines, move_text, totals_line};

use crate::moves::{Answered, Move, MoveAnswer};
use sb_base::{NoMemory, put_hexadecimal, put_named};
use sb_statements::Script;
use sb_transcript::put_verdict;

fn put_answer(line: &mut Vec<u8>, script: &Script, answer: MoveAnswer) -> Result<(), NoMemory>
    ensures { OnOk result (line.new.items ≡ line.old.items ++ answer_text script.now answer) }
{
    match answer {
        MoveAnswer::Given { handle, access } => {
            put_named(line, b"given ", handle)?;
            line.extend_from_slice(b" 0x")?;
            put_hexadecimal(line, u64::from(access))
        }
        MoveAnswer::NotHeld => Ok(line.extend_from_slice(b"not-held")?),
        MoveAnswer::MoreAccess { held } => {
            line.extend_from_slice(b"more-access 0x")?;
            put_hexadecimal(line, u64::from(held))
        }
        MoveAnswer::NoOpening => Ok(line.extend_from_slice(b"no-opening")?),
        MoveAnswer::Denied { target, verdict } => {
            line.extend_from_slice(b"denied ")?;
            line.extend_from_slice(script.target_name(target as usize))?;
            put_verdict(line, verdict)
        }
    }
}

// Appends the giver and its handle.
fn put_giver(line: &mut Vec<u8>, script: &Script, m: Move) -> Result<(), NoMemory>
    ensures { OnOk result (line.new.items ≡ line.old.items ++ giver_text script.now m) }
{
    line.extend_from_slice(script.target_name(m.from as usize))?;
    put_named(line, b" ", m.handle)
}

// Appends a move, without its answer.
fn put_move(line: &mut Vec<u8>, script: &Script, n: u64, m: Move) -> Result<(), NoMemory>
    ensures { OnOk result (line.new.items ≡ line.old.items ++ move_text script.now n m) }
{
    put_named(line, b"move ", n)?;
    line.push(b' ')?;
    put_giver(line, script, m)?;
    line.push(b' ')?;
    line.extend_from_slice(script.target_name(m.to as usize))?;
    Ok(())
}

// Appends the line of a move.
fn put_move_line(
    line: &mut Vec<u8>,
    script: &Script,
    n: u64,
    m: Move,
    answer: MoveAnswer,
) -> Result<(), NoMemory>
    ensures { OnOk result (line.new.items ≡ line.old.items ++ move_line script.now n m answer) }
{
    put_move(line, script, n, m)?;
    line.push(b' ')?;
    put_answer(line, script, answer)?;
    line.push(b'\n')?;
    Ok(())
}

// Appends the lines of moves with their answers.
fn put_move_lines(
    lines: &mut Vec<u8>,
    script: &Script,
    moves: &[(Move, MoveAnswer)],
) -> Result<(), NoMemory>
    ensures { OnOk result (lines.new.items ≡ lines.old.items ++ move_lines script.now 0 moves.now) }
{
    let mut n = 0;
    let mut rest = moves;
    while let Some((m, later)) = rest.split_first() {
        put_move_line(lines, script, n, m.0, m.1)?;
        n += 1;
        rest = later;
    }
    Ok(())
}

// Whether a handle was given.
fn is_given(m: &(Move, MoveAnswer)) -> bool
    ensures { result ≡ is_given m.now }
{
    match m.1 {
        MoveAnswer::Given { .. } => true,
        MoveAnswer::NotHeld
        | MoveAnswer::MoreAccess { .. }
        | MoveAnswer::NoOpening
        | MoveAnswer::Denied { .. } => false,
    }
}

// The number of handles that were given.
fn given_count(moves: &[(Move, MoveAnswer)]) -> usize
    ensures { result ≡ count_by is_given moves.now }
{
    moves.iter().filter(|m| is_given(m)).count()
}

// Appends the last line: the number of moves and that of the handles given.
fn put_totals_line(line: &mut Vec<u8>, moves: &Answered) -> Result<(), NoMemory>
    ensures { OnOk result (line.new.items ≡ line.old.items ++ totals_line moves.now) }
{
    put_named(line, b"moves ", moves.len() as u64)?;
    put_named(line, b" given ", given_count(moves.as_slice()) as u64)?;
    line.push(b'\n')?;
    Ok(())
}

/// Appends a line for each move with its answer, numbered from 0, and the line of the totals.
///
/// # Errors
/// `NoMemory` if there was none for the lines; then a part may have been appended.
pub fn put_moves(lines: &mut Vec<u8>, script: &Script, moves: &Answered) -> Result<(), NoMemory>
    ensures { OnOk result (lines.new.items ≡ lines.old.items ++ lines_of_moves script.now moves.now) }
{
    put_move_lines(lines, script, moves.as_slice())?;
    put_totals_line(lines, moves)
}

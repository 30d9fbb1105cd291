ghost use Rattle.std.specs.Prelude.{◌≡◌, reverse};
ghost use Rattle.hb_read_expressions.specs.Asking.{settled, ends_binds, row_ends, row_closes, bracket_closes, second_closes, field_closes, if_closes, then_closes, case_closes, statement_closes, taken_closes, frame_closes, top_closes, is_outermost, in_statement};

use crate::frame::Frame;
use crate::sort::Sort;

/// The frames around the forms on top that are open to the right.
pub(crate) fn settled(frames: &[Frame]) -> &[Frame]
    ensures { reverse result.now ≡ settled (reverse frames.now) }
{
    let mut left = frames;
    while let Some((top, below)) = left.split_last() {
        if top.right_end().is_none() {
            return left;
        }
        left = below;
    }
    left
}

/// A block of equations is right around.
pub(crate) fn ends_binds(frames: &[Frame]) -> bool
    ensures { result ≡ ends_binds (reverse frames.now) }
{
    match frames.split_last() {
        Some((top, _)) => matches!(
            top,
            Frame::LetBinds(_, _) | Frame::Where(_, _, _, _, _) | Frame::Block
        ),
        None => false,
    }
}

/// The token comes after a whole equation in these frames.
pub(crate) fn row_ends(frames: &[Frame], sort: Sort) -> bool
    ensures { result ≡ row_ends (reverse frames.now) sort }
{
    if frames.is_empty() {
        return false;
    }
    match sort {
        Sort::Semicolon => true,
        Sort::CloseBrace => ends_binds(frames),
        _ => false,
    }
}

fn row_closes(below: &[Frame], sort: Sort) -> bool
    ensures { result ≡ row_closes (reverse below.now) sort }
{
    match sort {
        Sort::Where => true,
        Sort::Semicolon => row_ends(below, Sort::Semicolon),
        Sort::CloseBrace => row_ends(below, Sort::CloseBrace),
        _ => false,
    }
}

fn bracket_closes(sort: Sort) -> bool
    ensures { result ≡ bracket_closes sort }
{
    matches!(sort, Sort::Close | Sort::Comma)
}

fn second_closes(sort: Sort) -> bool
    ensures { result ≡ second_closes sort }
{
    matches!(sort, Sort::Close)
}

fn field_closes(sort: Sort) -> bool
    ensures { result ≡ field_closes sort }
{
    matches!(sort, Sort::Bar | Sort::CloseSquare)
}

fn if_closes(sort: Sort) -> bool
    ensures { result ≡ if_closes sort }
{
    matches!(sort, Sort::Then)
}

fn then_closes(sort: Sort) -> bool
    ensures { result ≡ then_closes sort }
{
    matches!(sort, Sort::Else)
}

fn case_closes(sort: Sort) -> bool
    ensures { result ≡ case_closes sort }
{
    matches!(sort, Sort::Of)
}

fn statement_closes(sort: Sort) -> bool
    ensures { result ≡ statement_closes sort }
{
    matches!(sort, Sort::Semicolon | Sort::CloseBrace)
}

fn taken_closes(sort: Sort) -> bool
    ensures { result ≡ taken_closes sort }
{
    matches!(sort, Sort::Semicolon)
}

fn frame_closes(frame: Frame, below: &[Frame], sort: Sort) -> bool
    ensures { result ≡ frame_closes frame (reverse below.now) sort }
{
    match frame {
        Frame::Bracket(_, _) => bracket_closes(sort),
        Frame::Second(_, _) => second_closes(sort),
        Frame::Field(_, _, _, _, _, _) => field_closes(sort),
        Frame::If(_, _) => if_closes(sort),
        Frame::Then(_, _) => then_closes(sort),
        Frame::Case(_, _) => case_closes(sort),
        Frame::Alternative(_, _, _) => statement_closes(sort),
        Frame::Row(_, _, _, _) => row_closes(below, sort),
        Frame::Statement(_, _, _, _) => statement_closes(sort),
        Frame::Taken(_, _, _) => taken_closes(sort),
        _ => false,
    }
}

/// The token comes after a whole expression in these frames.
pub(crate) fn top_closes(frames: &[Frame], sort: Sort) -> bool
    ensures { result ≡ top_closes (reverse frames.now) sort }
{
    match frames.split_last() {
        Some((top, below)) => frame_closes(*top, below, sort),
        None => false,
    }
}

/// No more than one equation is open.
pub(crate) fn is_outermost(frames: &[Frame]) -> bool
    ensures { result ≡ is_outermost (reverse frames.now) }
{
    match frames.split_last() {
        Some((Frame::Row(_, _, _, _), below)) => below.is_empty(),
        Some(_) => false,
        None => true,
    }
}

/// A statement's expression is read.
pub(crate) fn in_statement(frames: &[Frame]) -> bool
    ensures { result ≡ in_statement (reverse frames.now) }
{
    let mut left = frames;
    while let Some((top, below)) = left.split_last() {
        if top.statement_head().is_some() {
            return true;
        }
        left = below;
    }
    false
}

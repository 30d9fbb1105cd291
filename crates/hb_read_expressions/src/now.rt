use crate::frame::{Begun, Spot, Target};
use hb_base::{Name, Place};

/// What simple patterns are read for.
#[derive(Clone, Copy)]
pub enum Purpose {
    /// A lambda at this place: one or more.
    ForLambda(Begun, Place),
    /// The parameters of an equation: its name, its place, and the count of equations before it.
    ForRow(Name, Place, u32),
    /// The right one of two around an operator that is defined.
    ForRight(Name, Place, u32),
}

/// What was read last, inside the frames, and so what may come.
#[derive(Clone, Copy)]
pub enum Now {
    /// An expression is to come.
    Want,
    /// An operand is to come.
    Operand(Begun),
    /// A post is whole, and more of it may follow: where it begins, and where its value stands.
    Post(Spot, Place, Place),
    /// A constructor's name: its place and itself.
    Con(Spot, Place, Name),
    /// `con [ ]`, after which nothing of the post follows.
    Sealed(Spot, Place),
    /// `post .` and where the post begins.
    Dotted(Spot, Place),
    /// `(`
    Opened(Spot, Place),
    /// `( op`
    OpName(Spot, Place, Name),
    /// `` ` `` between operands.
    Quoted(Begun),
    /// `` ` varid`` between operands.
    QuotedName(Begun, Place, Name),
    /// `post [` and where the post begins.
    FirstField(Spot, Place, Target),
    /// `post [ .. |` and the count of fields.
    NextField(Spot, Place, Target, u32),
    /// `post [ .. field`, with the count of fields before it, and its place and name.
    FieldName(Spot, Place, Target, u32, Place, Name),
    /// A `case` or a `do` is whole: its place.
    Whole(Begun, Place),
    /// A simple pattern is to come: what for, and how many there are.
    ParamStart(Purpose, u32),
    /// In a simple pattern: what for, and how many there are before it.
    Param(Purpose, u32),
    /// `{` is to come, and equations.
    BindsBrace,
    /// An equation may come, after so many.
    BindStart(u32),
    /// An equation begins with this name, after so many equations.
    RowVar(u32, Place, Name),
    /// An equation begins with `(` at this place.
    RowOpen(u32, Place),
    /// An equation begins with `( op`.
    RowOp(u32, Place, Name),
    /// An equation begins with `( op )`.
    RowName(u32, Place, Name),
    /// An equation begins with a simple pattern, which is read.
    RowLeft(u32, Place),
    /// `` apat ` `` of an equation at this place.
    RowQuote(u32, Place),
    /// `` apat ` varid`` of an equation at this place.
    RowQuoted(u32, Place, Name),
    /// After `where { .. }` of an equation: the count of equations with it.
    RowEnd(u32),
    /// A block of equations by itself is whole: its count.
    Over(u32),
    /// `let { .. }` with its count of equations.
    LetIn(Begun, Place, u32),
    /// `case expr of`
    CaseBrace(Begun, Place),
    /// An alternative may come, after so many.
    AltStart(Begun, Place, u32),
    /// In the pattern of an alternative, after so many.
    AltPat(Begun, Place, u32),
    /// `do`
    DoBrace(Begun, Place),
    /// A statement may come, after so many; if the last one was an expression, the block may end.
    StmtStart(Begun, Place, u32, bool),
    /// A statement that can only be one with a pattern: in the pattern, after so many statements.
    StmtPat(Begun, Place, u32),
}

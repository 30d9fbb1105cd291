use hb_base::Dir;
use hb_tokens::Word;
use hb_tree::Fix;

/// What a token may be.
#[derive(Clone, Copy)]
pub enum Kind {
    /// A variable.
    Var,
    /// A constructor.
    Con,
    /// An operator.
    Op,
    /// A number.
    Number,
    /// A number up to 9.
    Digit,
    /// A bit literal.
    Bits,
    /// `Pad`
    Pad,
    /// `/`
    Slash,
    /// `In` or `Out`
    Toward(Dir),
    /// A reserved word.
    Word(Word),
    /// A mark, by its byte.
    Mark(u8),
    /// The end of the text.
    End,
}

/// A form of a node that is put out where its parts are whole, with the place where it began and the number of its parts.
#[derive(Clone, Copy)]
pub enum Form {
    Names,
    Types,
    NoNumber,
    Sig,
    Sigs,
    Equations,
    Fixity(Fix),
    DataCon,
    DataCons,
    Fields,
    BitFields,
    BitCon,
    BitCons,
    StructFields,
    StructParts,
    Depend,
    Depends,
    Context,
    InitEach,
    InitField,
    InitFields,
    InitCell,
    NoInit,
    Init,
    Data,
    Bitdata,
    Struct,
    Area,
    Class,
    Instance,
    Program,
}

/// What a token puts out.
#[derive(Clone, Copy)]
pub enum Put {
    /// Nothing.
    Nothing,
    /// Its name, where it stands.
    Name,
    /// Its name, where the form began.
    NameBefore,
    /// Its number.
    Number,
    /// Its bits are a part of a bitdata constructor.
    Tag,
    /// So many bytes without a name.
    Pad,
    /// A port in this direction, whose address it is.
    Port(Dir),
    /// The node of a form that it closes.
    Close(Form),
}

/// Things of which there may be more, each behind a mark.
#[derive(Clone, Copy)]
pub enum Things {
    Names,
    Infixes,
    FieldNames,
    DataCons,
    BitCons,
    StructParts,
    Depends,
    Preds,
}

/// Readers of their own.
#[derive(Clone, Copy)]
pub enum Leaf {
    Type,
    Atype,
    Pred,
    Qualified,
    Expr,
    Equation,
}

/// A symbol of the grammar. What each stands for is told by its heads, and by what it is where no token is read for it.
#[derive(Clone, Copy)]
pub enum Symbol {
    /// One token of a kind.
    One(Kind, Put),
    /// A thing with a reader of its own.
    Read(Leaf),
    /// A node of a form whose parts are whole.
    Close(Form),
    /// More things of a kind, each behind a mark.
    More(Things),
    /// A whole program.
    Program,
    /// Declarations and `;`, up to `}`; and the same behind a declaration.
    Tops,
    AfterTop,
    /// The digit of a fixity.
    Digit(Fix),
    Infix,
    Name,
    /// varid*, and varid+
    Vars,
    SomeVars,
    /// atype*, and atype+
    Atypes,
    SomeAtypes,
    /// ["/" number], and ["aligned" number]
    Size,
    Align,
    DataCon,
    BitPart,
    /// Parts of a bitdata constructor up to `]`, and the same behind one.
    BitParts,
    MoreBitParts,
    BitCon,
    StructPart,
    /// ["<-" init]
    Start,
    Init,
    FieldInit,
    /// More fields up to `]`.
    MoreInits,
    Direction,
    Depend,
    /// ["|" sep(varid+ "->" varid+, ",")]
    Depends,
    /// ["where" block(sig)]
    Methods,
    Sigs,
    AfterSig,
    /// ["if" sep(pred, ",")]
    Conditions,
    /// ["where" block(equation)]
    Body,
    Rows,
    AfterRow,
    /// [context "=>"] conid varid+
    ClassHead,
}

/// How many parts a symbol begins with: none, one, as many as there were, one more; or the number that a token is.
#[derive(Clone, Copy)]
pub enum Count {
    Zero,
    One,
    Same,
    Next,
    Read,
}

/// A symbol in a production.
#[derive(Clone, Copy)]
pub struct Item {
    pub symbol: Symbol,
    pub count: Count,
}

/// What stands behind the first token of a symbol.
#[derive(Clone, Copy)]
pub enum Production {
    Nothing,
    Program,
    Tops,
    Fixity(Fix),
    Fixed(Fix),
    Data,
    Bitdata,
    Struct,
    Area,
    Port,
    Class,
    Instance,
    Quoted,
    Bracketed,
    More(Things),
    Vars,
    FirstVars,
    Number,
    DataCon,
    BitFields,
    FirstBitPart,
    FirstBitFields,
    MoreBitParts,
    BitCon,
    Padding,
    StructFields,
    Start,
    Each,
    Fields,
    FieldInit,
    MoreInits,
    Address(Dir),
    Depend,
    Depends,
    Methods,
    Sigs,
    SigNames,
    SigBracketed,
    Conditions,
    Body,
    Rows,
}

/// One way in which a symbol begins: a token of this kind, and what stands behind it.
#[derive(Clone, Copy)]
pub struct Head {
    pub kind: Kind,
    pub put: Put,
    pub behind: Production,
}

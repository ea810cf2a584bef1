//! What is done with the values that were read. Written by tools/reader_tables.py.

/// A change of the values that were read: the sorts of those that it takes, the newest last, and of
/// those that it puts in their place.
#[derive(Clone, Copy)]
pub enum Action {
    /// Leaves the values, and closes a construct.
    Leave,
    /// Leaves the values, and counts operators anew.
    Outer,
    /// `-> Program`
    StartProgram,
    /// `Program Define -> Program`
    DefineItem,
    /// `Program Word Fields -> Program`
    StructItem,
    /// `Program Ty Word Count -> Program`
    ArrayItem,
    /// `Program Ty Word Const -> Program`
    InitItem,
    /// `Program Ty Word -> Program`
    PlainItem,
    /// `Program Word -> Program`
    MutexItem,
    /// `Program Ty Word Fields Word Stmts -> Program`
    FunctionItem,
    /// `Program Ty Word Fields -> Program`
    PrototypeItem,
    /// `-> Ty`
    IntType,
    /// `-> Ty`
    ThreadType,
    /// `-> Ty`
    VoidType,
    /// `-> Ty`
    AnyType,
    /// `Word -> Ty`
    PtrType,
    /// `-> Fields`
    NoFields,
    /// `Ty Word -> Fields`
    OneField,
    /// `Fields Ty Word -> Fields`
    MoreField,
    /// `Word -> Count`
    NumberCount,
    /// `Word -> Count`
    NameCount,
    /// `Word Word -> Const`
    MinusConst,
    /// `Word -> Const`
    NumberConst,
    /// `Word -> Const`
    NameConst,
    /// `Word -> Const`
    NullConst,
    /// `Word -> Const`
    EofConst,
    /// `-> Stmts`
    NoStmts,
    /// `Stmts Stmt -> Stmts`
    MoreStmt,
    /// `Stmts Ty Word MaybeExpr -> Stmts Ty`
    DeclItem,
    /// `Ty ->`
    EndDecl,
    /// `Word Stmts -> Stmt`
    BlockStmt,
    /// `Word -> Stmt`
    EmptyStmt,
    /// `Word Operand Stmt -> Stmt`
    If,
    /// `Word Operand Stmt Stmt -> Stmt`
    IfElse,
    /// `Word Operand Stmt -> Stmt`
    While,
    /// `Word Stmts MaybeExpr MaybeStmt Stmt -> Stmt`
    For,
    /// `Word -> Stmt`
    Break,
    /// `Word -> Stmt`
    Continue,
    /// `Word MaybeExpr -> Stmt`
    Return,
    /// `-> MaybeStmt`
    NoStmt,
    /// `Stmt -> MaybeStmt`
    SomeStmt,
    /// `Operand Word Operand -> Stmt`
    Assign,
    /// `Operand Word -> Stmt`
    Post,
    /// `Word Operand -> Stmt`
    Pre,
    /// `Operand -> Stmt`
    Run,
    /// `Word Operand -> Stmt`
    Free,
    /// `Word Word Exprs -> Stmt`
    Print,
    /// `-> MaybeExpr`
    NoExpr,
    /// `Operand -> MaybeExpr`
    SomeExpr,
    /// `-> Exprs`
    NoArgs,
    /// `Operand -> Exprs`
    OneArg,
    /// `Exprs Operand -> Exprs`
    MoreArg,
    /// `Word -> Operand`
    Num,
    /// `Word -> Operand`
    NullExpr,
    /// `Word -> Operand`
    EofExpr,
    /// `Word -> Operand`
    NameExpr,
    /// `Word Word -> Operand`
    HiddenSlot,
    /// `Word Word -> Operand`
    TempSlot,
    /// `Word Operand -> Operand`
    Index,
    /// `Operand Word -> Operand`
    Field,
    /// `Word Exprs -> Operand`
    Call,
    /// `Word Word -> Operand`
    Malloc,
    /// `Word -> Operand`
    Getchar,
    /// `Word Operand Word Operand -> Operand`
    Create,
    /// `Word Operand -> Operand`
    Join,
    /// `Word Word -> Operand`
    Lock,
    /// `Word Word -> Operand`
    Unlock,
    /// `Word Operand -> Operand`
    Group,
    /// `Word Operand -> Operand`
    Un,
    /// `Word Ty Operand -> Operand`
    Cast,
    /// `Operand Word Operand -> Operand`
    Bin,
    /// `-> Mapping`
    StartMapping,
    /// `Mapping Word Word Word -> Mapping`
    MatchEntry,
    /// `Mapping Word Word -> Mapping`
    UnmatchedEntry,
    /// `Mapping Word Word Word Operand -> Mapping`
    FieldEntry,
    /// `Mapping Word Word Operand -> Mapping`
    InitEntry,
    /// `Mapping Word Word Pt Parts -> Mapping`
    PointEntry,
    /// `Mapping Word Operand -> Mapping`
    CheckEntry,
    /// `-> Pt`
    EntryPt,
    /// `Word Word -> Pt`
    NumberPt,
    /// `-> Fills`
    NoFills,
    /// `Fills Word Operand -> Fills`
    MoreFill,
    /// `Pt Fills -> Parts`
    OnePart,
    /// `Pt Fills Part -> Parts`
    TwoParts,
    /// `Pt Fills Part Part -> Parts`
    ThreeParts,
    /// `Pt Fills Part Part Part -> Parts`
    FourParts,
    /// `Word Pt Fills -> Part`
    AddPart,
    /// `Word Word -> Word`
    HiddenName,
    /// `Word -> Word`
    TempName,
}

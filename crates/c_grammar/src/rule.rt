//! The rules of the grammar. Written by tools/reader_tables.py.

/// A rule of the grammar, or a part that the reader factors a rule into. Each is written as the
/// sorts of the values that it finds and leaves, and its alternatives, as in tools/grammar.txt.
#[derive(Clone, Copy)]
pub enum Rule {
    // ISO C11, 6.9: external definitions.
    /// `Items [Program -> Program] = Item Items |`
    Items,
    /// `Item [Program -> Program] = Directive | StructDef | GlobalDef | "static" GlobalDef |
    /// MutexDef | "static" MutexDef | FunctionDef | "static" FunctionDef`
    Item,

    // ISO C11, 6.10.2 and 6.10.3: includes and defines.
    /// `Directive [Program -> Program] = INCLUDE | DEFINE$ @DefineItem`
    Directive,

    // ISO C11, 6.7.2: structs and types.
    /// `StructDef [Program -> Program] = "struct" NAME$ "{"+ @NoFields Fields "}" @Leave ";"
    /// @StructItem`
    StructDef,
    /// `Fields [Fields -> Fields] = Type NAME$ ";" @MoreField Fields |`
    Fields,
    /// `Type [-> Ty] = "int" @IntType | "pthread_t" @ThreadType | "void" "*" @AnyType | "struct"
    /// NAME$ "*" @PtrType`
    Type,

    // ISO C11, 6.9.2: globals, which are scalars and arrays; an array has no initialiser.
    /// `GlobalDef [Program -> Program] = Type NAME$ GlobalRest`
    GlobalDef,
    /// `GlobalRest [Program Ty Word -> Program] = "["+ Count "]" @Leave ";" @ArrayItem | "=" Const
    /// ";" @InitItem | ";" @PlainItem`
    GlobalRest,
    /// `Count [-> Count] = NUMBER$ @NumberCount | NAME$ @NameCount`
    Count,
    /// `Const [-> Const] = "-"$ NUMBER$ @MinusConst | NUMBER$ @NumberConst | CHAR$ @NumberConst |
    /// NAME$ @NameConst | "NULL"$ @NullConst | "EOF"$ @EofConst`
    Const,

    // POSIX, pthread.h: mutexes.
    /// `MutexDef [Program -> Program] = "pthread_mutex_t" Mutex`
    MutexDef,
    /// `Mutex [Program -> Program] = NAME$ MutexInit ";" @MutexItem`
    Mutex,
    /// `MutexInit [->] = "=" "PTHREAD_MUTEX_INITIALIZER" |`
    MutexInit,

    // ISO C11, 6.9.1: functions.
    /// `FunctionDef [Program -> Program] = Type NAME$ "("+ Params ")" @Leave Body | "void"
    /// @VoidType NAME$ "("+ Params ")" @Leave Body`
    FunctionDef,
    /// `Params [-> Fields] = "void" @NoFields | Type NAME$ @OneField MoreParams | @NoFields`
    Params,
    /// `MoreParams [Fields -> Fields] = "," Type NAME$ @MoreField MoreParams |`
    MoreParams,
    /// `Body [Program Ty Word Fields -> Program] = Block @FunctionItem | ";" @PrototypeItem`
    Body,

    // ISO C11, 6.8.2: blocks.
    /// `Block [-> Word Stmts] = "{"$+ @NoStmts BlockItems "}" @Leave`
    Block,
    /// `BlockItems [Stmts -> Stmts] = Decl ";" BlockItems | Stmt @MoreStmt BlockItems |`
    BlockItems,

    // ISO C11, 6.7: declarations of locals.
    /// `Decl [Stmts -> Stmts] = "int" @IntType IntItem IntItems @EndDecl | "pthread_t" @ThreadType
    /// IntItem IntItems @EndDecl | "void" @AnyType PtrItem PtrItems @EndDecl | "struct" NAME$
    /// @PtrType PtrItem PtrItems @EndDecl`
    Decl,
    /// `IntItem [Stmts Ty -> Stmts Ty] = NAME$ Init @DeclItem`
    IntItem,
    /// `IntItems [Stmts Ty -> Stmts Ty] = "," IntItem IntItems |`
    IntItems,
    /// `PtrItem [Stmts Ty -> Stmts Ty] = "*" NAME$ Init @DeclItem`
    PtrItem,
    /// `PtrItems [Stmts Ty -> Stmts Ty] = "," PtrItem PtrItems |`
    PtrItems,
    /// `Init [-> MaybeExpr] = "=" @Outer Expr @SomeExpr | @NoExpr`
    Init,

    // ISO C11, 6.8: statements.
    /// `Stmt [-> Stmt] = Block @BlockStmt | ";"$ @EmptyStmt | "if"$ "("+ @Outer Expr ")" Stmt
    /// @Leave ElsePart | "while"$ "("+ @Outer Expr ")" Stmt @Leave @While | "for"$ "("+ @NoStmts
    /// ForInit ";" OptExpr ";" OptSimple ")" Stmt @Leave @For | "break"$ ";" @Break | "continue"$
    /// ";" @Continue | "return"$ OptExpr ";" @Return | @Outer Simple ";"`
    Stmt,
    /// `ElsePart [Word Operand Stmt -> Stmt] = "else"+ Stmt @Leave @IfElse | !"else" @If`
    ElsePart,
    /// `ForInit [Stmts -> Stmts] = Decl | @Outer Simple @MoreStmt |`
    ForInit,
    /// `OptExpr [-> MaybeExpr] = @Outer Expr @SomeExpr | @NoExpr`
    OptExpr,
    /// `OptSimple [-> MaybeStmt] = @Outer Simple @SomeStmt | @NoStmt`
    OptSimple,

    // ISO C11, 6.8.3: expression statements, of the forms that have an effect.
    /// `Simple [-> Stmt] = Lvalue Asgop @Outer Expr @Assign | Lvalue Incdec @Post | Call @Run |
    /// PreOp Lvalue @Leave @Pre | "free"$ "("+ Expr ")" @Leave @Free | "printf"$ "("+ STRING$
    /// @NoArgs PrintArgs ")" @Leave @Print`
    Simple,
    /// `PrintArgs [Exprs -> Exprs] = "," @Outer Expr @MoreArg PrintArgs |`
    PrintArgs,

    // ISO C11, 6.5.16, 6.5.2.4 and 6.5.3.1: signs of assignments.
    /// `Asgop [-> Word] = "="$ | "+="$ | "-="$ | "*="$ | "/="$ | "%="$ | "&="$ | "^="$ | "|="$ |
    /// "<<="$ | ">>="$`
    Asgop,
    /// `Incdec [-> Word] = "++"$ | "--"$`
    Incdec,
    /// `PreOp [-> Word] = "++"$+ | "--"$+`
    PreOp,

    // ISO C11, 6.3.2.1: what can be assigned to.
    /// `Lvalue [-> Operand] = NAME$ @NameExpr | NAME$ "["+ Expr "]" @Leave @Index | Postfix "->"#
    /// NAME$ @Field`
    Lvalue,

    // ISO C11, 6.5.2.2: calls; those of stdlib.h, stdio.h and pthread.h have words of their own.
    /// `Call [-> Operand] = NAME$ "("+ Args ")" @Leave @Call | WordCall`
    Call,
    /// `WordCall [-> Operand] = "malloc"$ MallocRest | "getchar"$ "("+ ")" @Leave @Getchar |
    /// "pthread_create"$ CreateRest | "pthread_join"$ JoinRest | "pthread_mutex_lock"$ LockRest
    /// @Lock | "pthread_mutex_unlock"$ LockRest @Unlock`
    WordCall,
    /// `MallocRest [Word -> Operand] = "("+ "sizeof" "("+ "struct" NAME$ ")" @Leave ")" @Leave
    /// @Malloc`
    MallocRest,
    /// `CreateRest [Word -> Operand] = "("+ "&" Lvalue "," "NULL" "," NAME$ "," Expr ")" @Leave
    /// @Create`
    CreateRest,
    /// `JoinRest [Word -> Operand] = "("+ Expr "," "NULL" ")" @Leave @Join`
    JoinRest,
    /// `LockRest [-> Word] = "("+ "&" NAME$ ")" @Leave`
    LockRest,
    /// `Args [-> Exprs] = Expr @OneArg MoreArgs | @NoArgs`
    Args,
    /// `MoreArgs [Exprs -> Exprs] = "," Expr @MoreArg MoreArgs |`
    MoreArgs,

    // ISO C11, 6.5.1 and 6.5.2: primary and postfix expressions.
    /// `Postfix [-> Operand] = Primary Arrows`
    Postfix,
    /// `Arrows [Operand -> Operand] = "->"# NAME$ @Field Arrows |`
    Arrows,
    /// `Primary [-> Operand] = Constant | NAME$ @NameExpr | NAME$ "["+ Expr "]" @Leave @Index |
    /// Call | "("$+ Expr ")" @Leave @Group`
    Primary,
    /// `Constant [-> Operand] = NUMBER$ @Num | CHAR$ @Num | "NULL"$ @NullExpr | "EOF"$ @EofExpr`
    Constant,

    // ISO C11, 6.5.5 to 6.5.14: operators between operands.
    /// `Unary [-> Operand] = UnOp Unary @Leave @Un | "("$+ CastType ")" Unary @Leave @Cast |
    /// Postfix`
    Unary,
    /// `UnOp [-> Word] = "-"$+ | "!"$+ | "~"$+`
    UnOp,
    /// `CastType [-> Ty] = "struct" NAME$ "*" @PtrType | "void" "*" @AnyType`
    CastType,

    // Expressions of mappings: names of slots, and no calls and no casts.
    /// `MapUnary [-> Operand] = UnOp MapUnary @Leave @Un | Constant MapArrows | "("$+ MapExpr ")"
    /// @Leave @Group MapArrows | AnyName MapName MapArrows | "."$ NUMBER$ @TempSlot MapArrows`
    MapUnary,
    /// `MapName [Word -> Operand] = "["+ MapExpr "]" @Leave @Index | "." NUMBER$ @HiddenSlot |
    /// @NameExpr`
    MapName,
    /// `MapArrows [Operand -> Operand] = "->"# AnyName @Field MapArrows |`
    MapArrows,
    /// `AnyName [-> Word] = NewName | "none"$`
    AnyName,
    /// `NewName [-> Word] = NAME$ | "function"$ | "global"$ | "mutex"$ | "field"$ | "init"$ |
    /// "point"$ | "check"$ | "entry"$ | "loop"$ | "call"$ | "block"$`
    NewName,

    // Mappings.
    /// `Entries [Mapping -> Mapping] = Entry ";" Entries |`
    Entries,
    /// `Entry [Mapping -> Mapping] = OtherEntry | "point"$ AnyName Pt "->" Parts @PointEntry`
    Entry,
    /// `OtherEntry [Mapping -> Mapping] = Side AnyName "->" Target | "field"$ AnyName "." AnyName
    /// "=" @Outer MapExpr @FieldEntry | "init"$ AnyName "=" @Outer MapExpr @InitEntry | "check"$
    /// @Outer MapExpr @CheckEntry`
    OtherEntry,
    /// `Side [-> Word] = "function"$ | "struct"$ | "global"$ | "mutex"$`
    Side,
    /// `Target [Mapping Word Word -> Mapping] = NewName @MatchEntry | "none" @UnmatchedEntry`
    Target,
    /// `Pt [-> Pt] = "entry" @EntryPt | PtWord NUMBER$ @NumberPt`
    Pt,
    /// `PtWord [-> Word] = "loop"$ | "call"$ | "block"$`
    PtWord,
    /// `Fills [-> Fills] = "{" @NoFills FillList "}" | @NoFills`
    Fills,
    /// `FillList [Fills -> Fills] = FillName "=" @Outer MapExpr ";" @MoreFill FillList |`
    FillList,
    /// `FillName [-> Word] = AnyName FillNumber | "." NUMBER$ @TempName`
    FillName,
    /// `FillNumber [Word -> Word] = "." NUMBER$ @HiddenName |`
    FillNumber,

    // One to four parts of a point, each but the first with its function.
    /// `Parts [-> Parts] = Pt Fills SecondPart`
    Parts,
    /// `SecondPart [Pt Fills -> Parts] = "+" AddedPart ThirdPart | @OnePart`
    SecondPart,
    /// `ThirdPart [Pt Fills Part -> Parts] = "+" AddedPart FourthPart | @TwoParts`
    ThirdPart,
    /// `FourthPart [Pt Fills Part Part -> Parts] = "+" AddedPart @FourParts | @ThreeParts`
    FourthPart,
    /// `AddedPart [-> Part] = AnyName Pt Fills @AddPart`
    AddedPart,

    // Mappings of the first format, where a point has one part.
    /// `FirstEntries [Mapping -> Mapping] = FirstEntry ";" FirstEntries |`
    FirstEntries,
    /// `FirstEntry [Mapping -> Mapping] = OtherEntry | "point"$ AnyName Pt "->" OnlyPart
    /// @PointEntry`
    FirstEntry,
    /// `OnlyPart [-> Parts] = Pt Fills @OnePart`
    OnlyPart,
    /// `Mul [-> Operand] = Unary MulTail`
    Mul,
    /// `MulTail [Operand -> Operand] = MulOp Unary @Bin MulTail |`
    MulTail,
    /// `Add [-> Operand] = Mul AddTail`
    Add,
    /// `AddTail [Operand -> Operand] = AddOp Mul @Bin AddTail |`
    AddTail,
    /// `Shift [-> Operand] = Add ShiftTail`
    Shift,
    /// `ShiftTail [Operand -> Operand] = ShiftOp Add @Bin ShiftTail |`
    ShiftTail,
    /// `Order [-> Operand] = Shift OrderTail`
    Order,
    /// `OrderTail [Operand -> Operand] = OrderOp Shift @Bin OrderTail |`
    OrderTail,
    /// `Equal [-> Operand] = Order EqualTail`
    Equal,
    /// `EqualTail [Operand -> Operand] = EqualOp Order @Bin EqualTail |`
    EqualTail,
    /// `BitAnd [-> Operand] = Equal BitAndTail`
    BitAnd,
    /// `BitAndTail [Operand -> Operand] = BitAndOp Equal @Bin BitAndTail |`
    BitAndTail,
    /// `BitXor [-> Operand] = BitAnd BitXorTail`
    BitXor,
    /// `BitXorTail [Operand -> Operand] = BitXorOp BitAnd @Bin BitXorTail |`
    BitXorTail,
    /// `BitOr [-> Operand] = BitXor BitOrTail`
    BitOr,
    /// `BitOrTail [Operand -> Operand] = BitOrOp BitXor @Bin BitOrTail |`
    BitOrTail,
    /// `AndAnd [-> Operand] = BitOr AndAndTail`
    AndAnd,
    /// `AndAndTail [Operand -> Operand] = AndAndOp BitOr @Bin AndAndTail |`
    AndAndTail,
    /// `Expr [-> Operand] = AndAnd ExprTail`
    Expr,
    /// `ExprTail [Operand -> Operand] = OrOrOp AndAnd @Bin ExprTail |`
    ExprTail,
    /// `MapMul [-> Operand] = MapUnary MapMulTail`
    MapMul,
    /// `MapMulTail [Operand -> Operand] = MulOp MapUnary @Bin MapMulTail |`
    MapMulTail,
    /// `MapAdd [-> Operand] = MapMul MapAddTail`
    MapAdd,
    /// `MapAddTail [Operand -> Operand] = AddOp MapMul @Bin MapAddTail |`
    MapAddTail,
    /// `MapShift [-> Operand] = MapAdd MapShiftTail`
    MapShift,
    /// `MapShiftTail [Operand -> Operand] = ShiftOp MapAdd @Bin MapShiftTail |`
    MapShiftTail,
    /// `MapOrder [-> Operand] = MapShift MapOrderTail`
    MapOrder,
    /// `MapOrderTail [Operand -> Operand] = OrderOp MapShift @Bin MapOrderTail |`
    MapOrderTail,
    /// `MapEqual [-> Operand] = MapOrder MapEqualTail`
    MapEqual,
    /// `MapEqualTail [Operand -> Operand] = EqualOp MapOrder @Bin MapEqualTail |`
    MapEqualTail,
    /// `MapBitAnd [-> Operand] = MapEqual MapBitAndTail`
    MapBitAnd,
    /// `MapBitAndTail [Operand -> Operand] = BitAndOp MapEqual @Bin MapBitAndTail |`
    MapBitAndTail,
    /// `MapBitXor [-> Operand] = MapBitAnd MapBitXorTail`
    MapBitXor,
    /// `MapBitXorTail [Operand -> Operand] = BitXorOp MapBitAnd @Bin MapBitXorTail |`
    MapBitXorTail,
    /// `MapBitOr [-> Operand] = MapBitXor MapBitOrTail`
    MapBitOr,
    /// `MapBitOrTail [Operand -> Operand] = BitOrOp MapBitXor @Bin MapBitOrTail |`
    MapBitOrTail,
    /// `MapAndAnd [-> Operand] = MapBitOr MapAndAndTail`
    MapAndAnd,
    /// `MapAndAndTail [Operand -> Operand] = AndAndOp MapBitOr @Bin MapAndAndTail |`
    MapAndAndTail,
    /// `MapExpr [-> Operand] = MapAndAnd MapExprTail`
    MapExpr,
    /// `MapExprTail [Operand -> Operand] = OrOrOp MapAndAnd @Bin MapExprTail |`
    MapExprTail,
    /// `MulOp [-> Word] = "*"$# | "/"$# | "%"$#`
    MulOp,
    /// `AddOp [-> Word] = "+"$# | "-"$#`
    AddOp,
    /// `ShiftOp [-> Word] = "<<"$# | ">>"$#`
    ShiftOp,
    /// `OrderOp [-> Word] = "<"$# | "<="$# | ">"$# | ">="$#`
    OrderOp,
    /// `EqualOp [-> Word] = "=="$# | "!="$#`
    EqualOp,
    /// `BitAndOp [-> Word] = "&"$#`
    BitAndOp,
    /// `BitXorOp [-> Word] = "^"$#`
    BitXorOp,
    /// `BitOrOp [-> Word] = "|"$#`
    BitOrOp,
    /// `AndAndOp [-> Word] = "&&"$#`
    AndAndOp,
    /// `OrOrOp [-> Word] = "||"$#`
    OrOrOp,

    // Parts into which the reader factors rules.
    /// `StaticItem [Program -> Program] = "struct" NAME$ "*" @PtrType NAME$ Declared | "int"
    /// @IntType NAME$ Declared | "pthread_t" @ThreadType NAME$ Declared | "void" AfterVoid |
    /// "pthread_mutex_t" Mutex`
    StaticItem,
    /// `AfterStruct [Program Word -> Program] = "{"+ @NoFields Fields "}" @Leave ";" @StructItem |
    /// "*" @PtrType NAME$ Declared`
    AfterStruct,
    /// `AfterVoid [Program -> Program] = "*" @AnyType NAME$ Declared | @VoidType NAME$ "("+ Params
    /// ")" @Leave Body`
    AfterVoid,
    /// `Declared [Program Ty Word -> Program] = "("+ Params ")" @Leave Body | GlobalRest`
    Declared,
    /// `AfterVoidParam [-> Fields] = "*" @AnyType NAME$ @OneField MoreParams | @NoFields`
    AfterVoidParam,
    /// `AfterName [Word -> Stmt] = @NameExpr AssignTail | @NameExpr FieldTail | "["+ Expr "]"
    /// @Leave @Index AfterPlace | "("+ Args ")" @Leave @Call AfterCall`
    AfterName,
    /// `AssignTail [Operand -> Stmt] = Asgop @Outer Expr @Assign | Incdec @Post`
    AssignTail,
    /// `AfterPlace [Operand -> Stmt] = AssignTail | FieldTail`
    AfterPlace,
    /// `FieldTail [Operand -> Stmt] = "->"# NAME$ @Field AfterPlace`
    FieldTail,
    /// `AfterCall [Operand -> Stmt] = FieldTail | @Run`
    AfterCall,
    /// `LvName [Word -> Operand] = "["+ Expr "]" @Leave @Index Arrows | "("+ Args ")" @Leave @Call
    /// LvTail | @NameExpr LvTail | @NameExpr`
    LvName,
    /// `LvTail [Operand -> Operand] = "->"# NAME$ @Field Arrows`
    LvTail,
    /// `AfterParen [Word -> Operand] = CastType ")" Unary @Leave @Cast | Expr ")" @Leave @Group
    /// Arrows`
    AfterParen,
    /// `NameTail [Word -> Operand] = "["+ Expr "]" @Leave @Index | "("+ Args ")" @Leave @Call |
    /// @NameExpr`
    NameTail,
}

//! How a run of the program ends.

ghost use Rattle.std.specs.Prelude.{◌≡◌};
ghost use Rattle.aqe_base.specs.Codes.{code_of};

/// Why a script is no sentence of the language.
#[derive(Clone, Copy, Debug, PartialEq, Eq, Drop)]
pub enum SyntaxKind {
    /// A byte that begins no token, or that is no UTF-8 where a text stands.
    BadByte,
    /// A string without its closing quote.
    OpenString,
    /// A quoted name without its closing backquote.
    OpenQuote,
    /// A backslash before a character that it may not stand before.
    BadEscape,
    /// A number above 9223372036854775808.
    WideNumber,
    /// Tokens that the grammar gives no tree.
    NotASentence,
}

/// Why a statement is refused by the rules of names and types.
#[derive(Clone, Copy, Debug, PartialEq, Eq, Drop)]
pub enum AnalysisKind {
    /// No table has the name.
    NoSuchTable,
    /// No column, or no function, has the name.
    NoSuchColumn,
    /// Several columns have the name.
    Ambiguous,
    /// An operand has a type that its operation does not take.
    TypeMismatch,
    /// A column of a grouped query stands outside the grouping expressions and aggregate calls.
    NotGrouped,
    /// A position names no output column.
    BadPosition,
    /// The two sides of a union differ in their number of columns.
    UnionWidth,
    /// An aggregate call stands where none may.
    NestedAggregate,
    /// The table was created before.
    TableExists,
    /// A table option is unknown, repeated or has a bad value.
    BadOption,
    /// Two columns of a table have one name.
    RepeatedColumn,
}

/// Why a file of a table is refused.
#[derive(Clone, Copy, Debug, PartialEq, Eq, Drop)]
pub enum TableKind {
    /// The file is not UTF-8.
    BadUtf8,
    /// The file is no CSV.
    BadCsv,
}

/// Which bound a run passed.
#[derive(Clone, Copy, Debug, PartialEq, Eq, Drop)]
pub enum LimitKind {
    /// The nesting of a statement, or the open parentheses of a script.
    Depth,
    /// The operators of a plan.
    Operators,
    /// The columns of a table or operator.
    Columns,
    /// The data files of a table.
    Files,
    /// The bytes of one file.
    FileBytes,
    /// The bytes of all loaded tables together.
    AllBytes,
    /// The lines of the events file.
    Events,
}

/// How a run of the program ended.
#[derive(Clone, Copy, Debug, PartialEq, Eq, Drop)]
pub enum Status {
    /// Every statement was carried out.
    Done,
    /// The words of the command line are not taken.
    Usage,
    /// The script is no sentence of the language.
    Syntax(SyntaxKind),
    /// A statement breaks the rules of names and types.
    Analysis(AnalysisKind),
    /// A file of a table cannot be read as the table's rows.
    BadTable(TableKind),
    /// The settings file or a SET breaks the form of settings.
    Settings,
    /// The events file breaks the form of events.
    Events,
    /// The store failed to read.
    ReadFault,
    /// A file or folder is not there.
    Missing,
    /// The sink failed to write.
    WriteFault,
    /// A counted quantity passed its bound.
    Limit(LimitKind),
    /// A task failed as often as the settings allow.
    Aborted,
    /// A stage was begun anew as often as the settings allow.
    StageAborted,
    /// The recorded events do not bring a query to its end.
    Unfinished,
    /// An allocation failed.
    Memory,
    /// The run needs a part of the language that this program does not have yet.
    NotBuilt,
}

impl Status {
    /// The exit status of the program.
    pub fn code(&self) -> u8
        ensures { result ≡ code_of self.now }
    {
        match self {
            Status::Done => 0,
            Status::Usage => 1,
            Status::Syntax(_) | Status::Analysis(_) | Status::BadTable(_) => 2,
            Status::Settings | Status::Events => 3,
            Status::ReadFault | Status::Missing => 4,
            Status::WriteFault => 5,
            Status::Limit(_) => 6,
            Status::Aborted | Status::StageAborted => 7,
            Status::Unfinished => 8,
            Status::Memory => 9,
            Status::NotBuilt => 10,
        }
    }
}

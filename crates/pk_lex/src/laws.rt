//! What the pieces of a script are, in words that don't retrace how they are found. A law is a
//! contract; its function does nothing.

ghost use Rattle.pk_lex.specs.Laws.{PiecesAreLexed, PiecesHoldTheTokens, PiecesTellTheFirstFault, SemicolonsCut, LexemesStandOnTheirLines, LexemesFillTheScript, QuotedBytesAreTexts, QuotesBeginTexts, TextsBeginWithQuotes, ExampleIsCut};

/// Each piece of a script, whatever its bytes, holds a fault or at least one token, each a token that a script can
/// hold: words are names, numbers are digits and texts are UTF-8.
pub fn pieces_are_lexed()
    ensures { PiecesAreLexed }
{}

/// Where a script has no fault, its pieces hold its tokens other than `;`, all of them and in order.
pub fn pieces_hold_the_tokens()
    ensures { PiecesHoldTheTokens }
{}

/// The first fault that the pieces of a script tell is the script's first fault.
pub fn pieces_tell_the_first_fault()
    ensures { PiecesTellTheFirstFault }
{}

/// A `;` cuts: the lexemes before it and those behind it give their pieces apart.
pub fn semicolons_cut()
    ensures { SemicolonsCut }
{}

/// Each lexeme of a script is the longest at some place of it, and its line is 1 plus the number of
/// line feeds before that place.
pub fn lexemes_stand_on_their_lines()
    ensures { LexemesStandOnTheirLines }
{}

/// A script is the bytes of its lexemes, joined: each begins where the one before ends, the first at
/// the script's front and the last up to its end, and none is empty.
pub fn lexemes_fill_the_script()
    ensures { LexemesFillTheScript }
{}

/// Bytes between quotes, each quote among them doubled and no quote behind them, are read as a text
/// of these bytes where they are UTF-8, and as a bad character elsewhere.
pub fn quoted_bytes_are_texts()
    ensures { QuotedBytesAreTexts }
{}

/// Where a quote stands, such bytes between quotes stand, or an unclosed text, which reaches to the
/// script's end.
pub fn quotes_begin_texts()
    ensures { QuotesBeginTexts }
{}

/// Every text, also an unclosed one, begins with a quote.
pub fn texts_begin_with_quotes()
    ensures { TextsBeginWithQuotes }
{}

/// `'it''s'`, a comment, a line feed and `;'` are a text on line 1 and an unclosed one on line 2; `a;`,
/// a line feed and `$;` are a word on line 1 and a fault on line 2.
pub fn example_is_cut()
    ensures { ExampleIsCut }
{}

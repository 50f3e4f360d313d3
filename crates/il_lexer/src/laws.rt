//! What follows of the definitions: a law each, as the contract of a function.

ghost use Rattle.il_lexer.specs.Laws.{OneOutcome, SpansAreTokens, WordsAreTokens};
ghost use Rattle.il_lexer.specs.Longest.{LongestSpelling, LongestWhereItEnds};
ghost use Rattle.il_lexer.specs.LongestGap.{GapIsLongest};
ghost use Rattle.il_lexer.specs.Unplaced.{ReadsAsItLexes, PrintedReads};

/// A source lexes into one list of tokens at most; where it lexes within the limits it has no lexical fault, and else it
/// has one at most. So `tokens` answers the only list or the only fault that there is.
pub fn lexes_in_one_way()
    ensures { OneOutcome }
{}

/// The tokens that a source lexes into are those that have their spans, and spans are those of their tokens. So `spans`
/// answers the only list that there is, too.
pub fn spans_are_tokens()
    ensures { SpansAreTokens }
{}

/// Each word of `WORDS`, alone, is a token whole: the word with its number.
pub fn words_are_tokens()
    ensures { WordsAreTokens }
{}

/// What `tokens` takes at a place is the longest spelling of a token there, and of one length a word before a name; where no
/// token begins, no spelling stands there, and the rule that is broken is L3 at a quote whose text ends, L2 at one that
/// doesn't end and at a comment that doesn't, L4 at digits, and L5 anywhere else (II.5.2 to II.5.4).
pub fn the_longest_spelling_is_taken()
    ensures { LongestSpelling }
{}

/// A spelling is the token at its place, where what stands behind it begins with nothing that goes on with it.
pub fn spellings_end()
    ensures { LongestWhereItEnds }
{}

/// A source lexes into tokens exactly where it reads as their spellings with gaps between them.
pub fn tokens_are_spellings()
    ensures { ReadsAsItLexes }
{}

/// Spellings that are printed with blanks between them, so that each ends before the next, read as these spellings.
pub fn printed_spellings_are_read()
    ensures { PrintedReads }
{}

/// The gap that `tokens` passes over at a place is the longest run of blanks and comments there (II.5.2).
pub fn the_longest_gap_is_passed()
    ensures { GapIsLongest }
{}

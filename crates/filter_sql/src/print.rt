//! Filters printed as SQL text.

ghost use Rattle.std.specs.Prelude.{◌≡◌, ◌++◌, ◌∷◌, ◌+◌, ◌<◌, ◌==◌, [], Some, codes, drop, map, option_map};
ghost use Rattle.std.specs.Prelude.{if◌then◌else◌, IfOk};
ghost use Rattle.std.specs.Option.{option_copied};
ghost use Rattle.std.specs.Str.{encode_utf8_all};
ghost use Rattle.like_patterns.specs.Texts.{pattern_text};
ghost use Rattle.filter_sql.specs.Words.{WritesOnOk, decimal, list_any, and_text, cell_of, chars, column_text};
ghost use Rattle.filter_sql.specs.Words.{comparison_text, constant_keyword, doubled, encode_lower, escape_text};
ghost use Rattle.filter_sql.specs.Words.{flat_map, formula, group_text, is_special, keyword_text, like_text, like_word};
ghost use Rattle.filter_sql.specs.Words.{literal_text, literals_text, membership_text, names_of, negation};
ghost use Rattle.filter_sql.specs.Words.{null_test_text, operator_text, or_text, pattern_test_text, patterned};
ghost use Rattle.filter_sql.specs.Words.{prefix_pattern};
ghost use Rattle.filter_sql.specs.Words.{prefix_text, quotable, quoted, range_text, scalar_content, sql_text};
ghost use Rattle.filter_sql.specs.Words.{starts_with_text, text_at, two_digits};
ghost use Rattle.filter_sql.specs.LiteralWords.{first_word, token_of_word, word_tree, word_trees};
ghost use Rattle.filter_sql.specs.Printing.{IsSqlText, written_text};
ghost use Rattle.filter_sql.specs.Tokens.{spelling};

use crate::column::Column;
use crate::lex::keyword_text;
use crate::literal_words::{Word, is_logical, word_at, words_behind, words_of};
use crate::token::Keyword;
use like_patterns::{Case, Pattern};
use std::alloc::{AllocError, Global};
use std::fmt::{self, Display, Formatter, Write};
use vortex_filter::{CompareOperator, Filter, Truth};
use vortex_value::{Scalar, ScalarValue};

/// The loosest connective that may stand in a place without parentheses.
#[derive(Clone, Copy, Debug, PartialEq, Eq)]
pub(crate) enum Level {
    Or,
    And,
    Not,
}

/// A filter that is printed with the names of its columns. A column that is not there is printed as
/// its number, from `$1` on.
#[derive(Drop)]
pub struct Sql<'a> {
    pub(crate) filter: &'a Filter,
    pub(crate) columns: &'a [Column],
    /// The words of literals of logical types, one for each literal; or none, if none has one.
    pub(crate) words: Vec<Option<Word>>,
}

impl<'a> Sql<'a> {
    /// The filter as SQL text, with the names of the columns. It takes memory only if a literal is of
    /// a logical type, for its word.
    pub fn of(
        alloc: Global,
        filter: &'a Filter,
        columns: &'a [Column],
    ) -> Result<Sql<'a>, AllocError>
        // What `Display` writes is a text of the filter.
        ensures { IfOk result (λ sql.
            IsSqlText (names_of columns.now) (formula filter.now) (written_text sql)) }
    {
        let words = words_of(alloc, filter)?;
        Ok(Sql {
            filter,
            columns,
            words,
        })
    }
}

/// Writes a character, twice if it is the quote.
fn write_quotable<W: Write>(character: char, quote: char, f: &mut Formatter<W>) -> fmt::Result
    ensures { WritesOnOk W.write_str_gives f.old result (quotable quote character) f.new }
{
    if character == quote {
        f.write_char(quote)?;
    }
    f.write_char(character)
}

/// Writes a string, and each quote in it twice.
fn write_doubled<W: Write>(text: &str, quote: char, f: &mut Formatter<W>) -> fmt::Result
    requires { quote < 128 }
    ensures { WritesOnOk W.write_str_gives f.old result (doubled quote text.now) f.new }
{
    for character in text.chars() {
        write_quotable(character, quote, f)?;
    }
    Ok(())
}

/// Writes a string in quotes, and each quote in it twice.
fn write_quoted<W: Write>(text: &str, quote: char, f: &mut Formatter<W>) -> fmt::Result
    requires { quote < 128 }
    ensures { WritesOnOk W.write_str_gives f.old result (quoted quote text.now) f.new }
{
    f.write_char(quote)?;
    write_doubled(text, quote, f)?;
    f.write_char(quote)
}

/// Writes a character of a prefix: a quote twice, and a `\` before what has a meaning in a pattern.
fn write_patterned<W: Write>(character: char, f: &mut Formatter<W>) -> fmt::Result
    ensures { WritesOnOk W.write_str_gives f.old result (patterned character) f.new }
{
    match character {
        '\'' => f.write_str("''"),
        '%' | '_' | '\\' => {
            f.write_char('\\')?;
            f.write_char(character)
        }
        _ => f.write_char(character),
    }
}

/// Writes a prefix as it stands in a pattern in quotes.
fn write_escaped<W: Write>(prefix: &str, f: &mut Formatter<W>) -> fmt::Result
    ensures { WritesOnOk W.write_str_gives f.old result (flat_map patterned (chars prefix.now)) f.new }
{
    for character in prefix.chars() {
        write_patterned(character, f)?;
    }
    Ok(())
}

/// Writes the pattern of the strings that begin so.
fn write_pattern<W: Write>(prefix: &str, f: &mut Formatter<W>) -> fmt::Result
    ensures { WritesOnOk W.write_str_gives f.old result (quoted 39 (prefix_pattern prefix.now)) f.new }
{
    f.write_str("'")?;
    write_escaped(prefix, f)?;
    f.write_str("%'")
}

/// Writes a byte as two digits.
#[tactic(auto, using(crate::proofs::Characters::digits_of_byte))]
fn write_two_digits<W: Write>(byte: u8, f: &mut Formatter<W>) -> fmt::Result
    ensures { WritesOnOk W.write_str_gives f.old result (two_digits byte) f.new }
{
    write!(f, "{byte:02x}")
}

/// Writes each byte as two digits.
fn write_digits<W: Write>(bytes: &[u8], f: &mut Formatter<W>) -> fmt::Result
    ensures { WritesOnOk W.write_str_gives f.old result (flat_map two_digits bytes.now) f.new }
{
    for byte in bytes {
        write_two_digits(*byte, f)?;
    }
    Ok(())
}

/// Writes bytes as in `x'00ff'`.
fn write_bytes<W: Write>(bytes: &[u8], f: &mut Formatter<W>) -> fmt::Result
    ensures { WritesOnOk W.write_str_gives f.old result (codes "x'" ++ (encode_lower bytes.now ++ codes "'")) f.new }
{
    f.write_str("x'")?;
    write_digits(bytes, f)?;
    f.write_str("'")
}

/// Writes the number of a column, from `$1` on, in quotes.
fn write_number<W: Write>(column: usize, f: &mut Formatter<W>) -> fmt::Result
    ensures { WritesOnOk W.write_str_gives f.old result (quoted 34 (36 ∷ decimal (column + 1))) f.new }
{
    let number = column as u128 + 1;
    write!(f, "\"${number}\"")
}

/// Writes the name of a column, or its number if it has none.
fn write_column<W: Write>(column: usize, columns: &[Column], f: &mut Formatter<W>) -> fmt::Result
    ensures { WritesOnOk W.write_str_gives f.old result (column_text (names_of columns.now) column) f.new }
{
    match columns.get(column) {
        Some(column) => write_quoted(column.name.as_str(), '"', f),
        None => write_number(column, f),
    }
}

/// Writes the word of a literal.
fn write_word<W: Write>(word: &Word, f: &mut Formatter<W>) -> fmt::Result
    ensures { WritesOnOk W.write_str_gives f.old result (spelling (token_of_word (word_tree word.now))) f.new }
{
    match word {
        Word::Bare(word) => f.write_str(word.as_str()),
        Word::Quoted(word) => write_quoted(word.as_str(), '\'', f),
    }
}

/// Writes a literal by its word, if it has one.
fn write_literal<W: Write>(
    word: Option<&Word>,
    literal: &Scalar,
    f: &mut Formatter<W>,
) -> fmt::Result
    ensures { WritesOnOk W.write_str_gives f.old result
        (literal_text (option_map word_tree (option_copied word.entry)) (cell_of literal.now)) f.new }
{
    match word {
        Some(word) => write_word(word, f),
        None => write_content(literal, f),
    }
}

/// Writes a literal without a word, and a question mark for what SQL has no literal for.
fn write_content<W: Write>(literal: &Scalar, f: &mut Formatter<W>) -> fmt::Result
    ensures { WritesOnOk W.write_str_gives f.old result (literal_text None (cell_of literal.now)) f.new }
{
    match literal.value() {
        None => f.write_str("null"),
        Some(_) if is_logical(&literal.dtype) => f.write_str("?"),
        Some(ScalarValue::Bool(true)) => f.write_str("true"),
        Some(ScalarValue::Bool(false)) => f.write_str("false"),
        Some(ScalarValue::Primitive(number)) => {
            let number = number.whole();
            write!(f, "{number}")
        }
        Some(ScalarValue::Utf8(text)) => write_quoted(text.as_str(), '\'', f),
        Some(ScalarValue::Binary(bytes)) => write_bytes(bytes.as_slice(), f),
        Some(_) => f.write_str("?"),
    }
}

fn operator_text(operator: CompareOperator) -> &'static str
    ensures { result.now ≡ operator_text operator }
{
    match operator {
        CompareOperator::Eq => "=",
        CompareOperator::NotEq => "<>",
        CompareOperator::Gt => ">",
        CompareOperator::Gte => ">=",
        CompareOperator::Lt => "<",
        CompareOperator::Lte => "<=",
    }
}

fn constant_text(truth: Truth) -> &'static str
    ensures { result.now ≡ keyword_text (constant_keyword truth) }
{
    match truth {
        Truth::True => "true",
        Truth::False => "false",
        Truth::Unknown => "null",
    }
}

/// Writes how a column stands to a literal.
fn write_comparison<W: Write>(
    column: usize,
    operator: CompareOperator,
    literal: &Scalar,
    columns: &[Column],
    words: &[Option<Word>],
    f: &mut Formatter<W>,
) -> fmt::Result
    ensures { WritesOnOk W.write_str_gives f.old result (comparison_text (names_of columns.now)
        (word_trees words.now) column operator (cell_of literal.now)) f.new }
{
    write_column(column, columns, f)?;
    f.write_str(" ")?;
    f.write_str(operator_text(operator))?;
    f.write_str(" ")?;
    write_literal(word_at(words, 0), literal, f)
}

/// Writes whether a column is null, or is not.
fn write_null_test<W: Write>(
    column: usize,
    is_negated: bool,
    columns: &[Column],
    f: &mut Formatter<W>,
) -> fmt::Result
    ensures { WritesOnOk W.write_str_gives f.old result
        (null_test_text (names_of columns.now) column is_negated) f.new }
{
    write_column(column, columns, f)?;
    f.write_str(if is_negated {
        " is not null"
    } else {
        " is null"
    })
}

/// What stands before the literal at this place: a comma and a space, or nothing before the first.
fn separator(index: usize) -> &'static str
    ensures { result.now ≡ (if index == 0 then [] else codes ", ") }
{
    if index == 0 { "" } else { ", " }
}

/// Writes literals with commas between them.
fn write_literals<W: Write>(
    literals: &[Scalar],
    words: &[Option<Word>],
    f: &mut Formatter<W>,
) -> fmt::Result
    ensures { WritesOnOk W.write_str_gives f.old result
        (literals_text (word_trees words.now) (map cell_of literals.now)) f.new }
{
    for (index, literal) in literals.iter().enumerate() {
        f.write_str(separator(index))?;
        write_literal(word_at(words, index), literal, f)?;
    }
    Ok(())
}

/// Writes whether a column is one of the literals, or is none.
fn write_membership<W: Write>(
    column: usize,
    literals: &[Scalar],
    is_negated: bool,
    columns: &[Column],
    words: &[Option<Word>],
    f: &mut Formatter<W>,
) -> fmt::Result
    ensures { WritesOnOk W.write_str_gives f.old result (membership_text (names_of columns.now)
        (word_trees words.now) column is_negated (map cell_of literals.now)) f.new }
{
    write_column(column, columns, f)?;
    f.write_str(if is_negated { " not in (" } else { " in (" })?;
    write_literals(literals, words, f)?;
    f.write_str(")")
}

/// Writes whether a column lies between two literals, or does not.
fn write_range<W: Write>(
    column: usize,
    lower: &Scalar,
    upper: &Scalar,
    is_negated: bool,
    columns: &[Column],
    words: &[Option<Word>],
    f: &mut Formatter<W>,
) -> fmt::Result
    ensures { WritesOnOk W.write_str_gives f.old result (range_text (names_of columns.now)
        (word_trees words.now) column is_negated (cell_of lower.now) (cell_of upper.now)) f.new }
{
    write_column(column, columns, f)?;
    f.write_str(if is_negated {
        " not between "
    } else {
        " between "
    })?;
    write_literal(word_at(words, 0), lower, f)?;
    f.write_str(" and ")?;
    write_literal(word_at(words, 1), upper, f)
}

/// Whether a byte has a meaning of its own in a pattern.
fn is_special(byte: u8) -> bool
    ensures { result ≡ is_special byte }
{
    matches!(byte, b'%' | b'_' | b'\\')
}

/// Whether a byte of the prefix has a meaning of its own in a pattern.
fn has_special(prefix: &[u8]) -> bool
    ensures { result ≡ list_any is_special prefix.now }
{
    prefix.iter().any(|byte| is_special(*byte))
}

/// Which character escapes, if one is escaped.
fn escape(is_needed: bool) -> &'static str
    ensures { result.now ≡ escape_text is_needed }
{
    if is_needed { " escape '\\'" } else { "" }
}

/// Writes whether a column begins so: by `like` for a string, and by `starts_with` for what is none.
fn write_prefix<W: Write>(
    column: usize,
    prefix: &Scalar,
    columns: &[Column],
    words: &[Option<Word>],
    f: &mut Formatter<W>,
) -> fmt::Result
    ensures { WritesOnOk W.write_str_gives f.old result (prefix_text (names_of columns.now) column
        (literal_text (first_word (word_trees words.now)) (cell_of prefix.now)) (scalar_content prefix.now)) f.new }
{
    match prefix.value() {
        Some(ScalarValue::Utf8(text)) => write_like(column, text.as_str(), columns, f),
        _ => write_starts_with(column, prefix, columns, words, f),
    }
}

fn write_like<W: Write>(
    column: usize,
    prefix: &str,
    columns: &[Column],
    f: &mut Formatter<W>,
) -> fmt::Result
    ensures { WritesOnOk W.write_str_gives f.old result (like_text (names_of columns.now) column prefix.now) f.new }
{
    write_column(column, columns, f)?;
    f.write_str(" like ")?;
    write_pattern(prefix, f)?;
    f.write_str(escape(has_special(prefix.as_bytes())))
}

/// `like`, or `ilike`.
fn like_word(case: Case) -> &'static str
    ensures { result.now ≡ like_word case }
{
    match case {
        Case::Sensitive => " like ",
        Case::Insensitive => " ilike ",
    }
}

/// Writes a pattern in quotes, and each quote in it twice.
fn write_quoted_pattern<W: Write>(pattern: &Pattern, f: &mut Formatter<W>) -> fmt::Result
    ensures { WritesOnOk W.write_str_gives f.old result
        (quoted 39 (encode_utf8_all (pattern_text pattern.now))) f.new }
{
    f.write_str("'")?;
    pattern.write_doubled('\'', f)?;
    f.write_str("'")
}

/// Writes whether a column is like a pattern.
fn write_pattern_test<W: Write>(
    column: usize,
    pattern: &Pattern,
    case: Case,
    columns: &[Column],
    f: &mut Formatter<W>,
) -> fmt::Result
    ensures { WritesOnOk W.write_str_gives f.old result
        (pattern_test_text (names_of columns.now) column case pattern.now) f.new }
{
    write_column(column, columns, f)?;
    f.write_str(like_word(case))?;
    write_quoted_pattern(pattern, f)?;
    f.write_str(escape(pattern.needs_escape()))
}

fn write_starts_with<W: Write>(
    column: usize,
    prefix: &Scalar,
    columns: &[Column],
    words: &[Option<Word>],
    f: &mut Formatter<W>,
) -> fmt::Result
    ensures { WritesOnOk W.write_str_gives f.old result (starts_with_text (names_of columns.now) column
        (literal_text (first_word (word_trees words.now)) (cell_of prefix.now))) f.new }
{
    f.write_str("starts_with(")?;
    write_column(column, columns, f)?;
    f.write_str(", ")?;
    write_literal(word_at(words, 0), prefix, f)?;
    f.write_str(")")
}

/// Writes a parenthesis, if it is needed.
fn write_if<W: Write>(is_needed: bool, text: &'static str, f: &mut Formatter<W>) -> fmt::Result
    ensures { WritesOnOk W.write_str_gives f.old result (if is_needed then text.now else []) f.new }
{
    f.write_str(if is_needed { text } else { "" })
}

/// Writes a filter where this level may stand bare.
#[cycle(sql)]
fn write_filter<W: Write>(
    filter: &Filter,
    level: Level,
    columns: &[Column],
    words: &[Option<Word>],
    f: &mut Formatter<W>,
) -> fmt::Result
    ensures { WritesOnOk W.write_str_gives f.old result
        (text_at (names_of columns.now) (word_trees words.now) level (formula filter.now)) f.new }
{
    match filter {
        Filter::Constant(truth) => f.write_str(constant_text(*truth)),
        Filter::Compare {
            column,
            operator,
            literal,
        } => write_comparison(*column, *operator, literal, columns, words, f),
        Filter::IsNull { column } => write_null_test(*column, false, columns, f),
        Filter::In { column, literals } => write_membership(
            *column, literals, false, columns, words, f,
        ),
        Filter::Between {
            column,
            lower,
            upper,
        } => write_range(*column, lower, upper, false, columns, words, f),
        Filter::StartsWith { column, prefix } => write_prefix(*column, prefix, columns, words, f),
        Filter::Like {
            column,
            pattern,
            case,
        } => write_pattern_test(*column, pattern, *case, columns, f),
        Filter::And(left, right) => write_and(left, right, level == Level::Not, columns, words, f),
        Filter::Or(left, right) => write_or(left, right, level != Level::Or, columns, words, f),
        Filter::Not(filter) => write_not(filter, columns, words, f),
    }
}

/// Writes that both hold, in parentheses if they are needed.
#[cycle(sql)]
fn write_and<W: Write>(
    left: &Filter,
    right: &Filter,
    is_grouped: bool,
    columns: &[Column],
    words: &[Option<Word>],
    f: &mut Formatter<W>,
) -> fmt::Result
    ensures { WritesOnOk W.write_str_gives f.old result
        (group_text is_grouped (and_text (names_of columns.now) (word_trees words.now)
        (formula left.now) (formula right.now))) f.new }
{
    write_if(is_grouped, "(", f)?;
    write_filter(left, Level::Not, columns, words, f)?;
    f.write_str(" and ")?;
    write_filter(right, Level::And, columns, words_behind(left, words), f)?;
    write_if(is_grouped, ")", f)
}

/// Writes that one of both holds, in parentheses if they are needed.
#[cycle(sql)]
fn write_or<W: Write>(
    left: &Filter,
    right: &Filter,
    is_grouped: bool,
    columns: &[Column],
    words: &[Option<Word>],
    f: &mut Formatter<W>,
) -> fmt::Result
    ensures { WritesOnOk W.write_str_gives f.old result
        (group_text is_grouped (or_text (names_of columns.now) (word_trees words.now)
        (formula left.now) (formula right.now))) f.new }
{
    write_if(is_grouped, "(", f)?;
    write_filter(left, Level::And, columns, words, f)?;
    f.write_str(" or ")?;
    write_filter(right, Level::Or, columns, words_behind(left, words), f)?;
    write_if(is_grouped, ")", f)
}

/// Writes that a filter does not hold: `is not null`, `not in` and `not between` of one column, and
/// `not` before any other.
#[cycle(sql)]
fn write_not<W: Write>(
    filter: &Filter,
    columns: &[Column],
    words: &[Option<Word>],
    f: &mut Formatter<W>,
) -> fmt::Result
    ensures { WritesOnOk W.write_str_gives f.old result
        (text_at (names_of columns.now) (word_trees words.now) Level.Not (negation (formula filter.now))) f.new }
{
    match filter {
        Filter::IsNull { column } => write_null_test(*column, true, columns, f),
        Filter::In { column, literals } => write_membership(
            *column, literals, true, columns, words, f,
        ),
        Filter::Between {
            column,
            lower,
            upper,
        } => write_range(*column, lower, upper, true, columns, words, f),
        Filter::Constant(_) => write_denial(filter, columns, words, f),
        Filter::Compare { .. } => write_denial(filter, columns, words, f),
        Filter::StartsWith { .. } => write_denial(filter, columns, words, f),
        Filter::Like { .. } => write_denial(filter, columns, words, f),
        Filter::And(_, _) => write_denial(filter, columns, words, f),
        Filter::Or(_, _) => write_denial(filter, columns, words, f),
        Filter::Not(_) => write_denial(filter, columns, words, f),
    }
}

/// Writes `not` and the filter.
#[cycle(sql)]
fn write_denial<W: Write>(
    filter: &Filter,
    columns: &[Column],
    words: &[Option<Word>],
    f: &mut Formatter<W>,
) -> fmt::Result
    ensures { WritesOnOk W.write_str_gives f.old result
        (codes "not " ++ text_at (names_of columns.now) (word_trees words.now) Level.Not (formula filter.now)) f.new }
{
    f.write_str("not ")?;
    write_filter(filter, Level::Not, columns, words, f)
}

/// Writes a whole filter.
fn write_sql<W: Write>(
    filter: &Filter,
    columns: &[Column],
    words: &[Option<Word>],
    f: &mut Formatter<W>,
) -> fmt::Result
    ensures { WritesOnOk W.write_str_gives f.old result
        (sql_text (names_of columns.now) (word_trees words.now) (formula filter.now)) f.new }
{
    write_filter(filter, Level::Or, columns, words, f)
}

/// Writes SQL, with the names of the columns.
impl Display for Sql<'_> {
    ghost output = { λ sql. Some (written_text sql) };

    fn fmt<W: Write>(&self, f: &mut Formatter<W>) -> fmt::Result {
        write_sql(self.filter, self.columns, &self.words, f)
    }
}

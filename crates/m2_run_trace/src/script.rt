//! The lines of a scenario's text as a trace has them.

ghost use Rattle.std.specs.Prelude.{◌≡◌, ◌++◌, IfOk, OnOk, codes};
ghost use Rattle.std.specs.List.{flat_map};
ghost use Rattle.std.specs.Option.{option_copied};
ghost use Rattle.m2_run_trace.specs.Script.{facts_in, facts_line, facts_of, is_played, joined, lines_above, lines_behind, next_step, quiet_by, quiet_text, sort_of, sort_of_words, spaced, step_line, told_under};
ghost use Rattle.m2_scenario.specs.Line.{is_comment};
ghost use Rattle.m2_scenario.specs.Text.{pieces};

use m2_bytes::{Blob, NoMemory};
use m2_journal::NodeFacts;
use m2_promise::{MemoryCluster, MemoryNode};
use m2_scenario::{Node, Words, cut, words_in};
use m2_trace::put_node;

/// What a line of the text is.
#[derive(Clone, Copy, Debug, PartialEq, Eq)]
enum Sort {
    /// It has no words.
    Blank,
    /// It begins with `#`.
    Comment,
    Node,
    Link,
    /// Any other: a line that is played.
    Step,
}

fn sort_of(line: &[u8]) -> Sort
    ensures { result ≡ sort_of line.now }
{
    if is_comment(line) {
        Sort::Comment
    } else {
        sort_of_words(words_in(line))
    }
}

fn is_comment(line: &[u8]) -> bool
    ensures { result ≡ is_comment line.now }
{
    matches!(line, [b'#', ..])
}

fn sort_of_words(words: Words<'_>) -> Sort
    ensures { result ≡ sort_of_words words.entry }
{
    let mut words = words;
    match words.next() {
        None => Sort::Blank,
        Some(word) => {
            if word == b"node".as_slice() {
                Sort::Node
            } else if word == b"link".as_slice() {
                Sort::Link
            } else {
                Sort::Step
            }
        }
    }
}

fn is_played(sort: Sort) -> bool
    ensures { result ≡ is_played sort }
{
    match sort {
        Sort::Step => true,
        Sort::Blank | Sort::Comment | Sort::Node | Sort::Link => false,
    }
}

/// Prints the lines above the next one that is played; that one, and the text behind it. Where none is played, neither has
/// any bytes.
pub(crate) fn put_until_step<'a>(
    out: &mut Blob,
    text: &'a [u8],
    nodes: &[Node],
    cluster: &MemoryCluster,
) -> Result<(&'a [u8], &'a [u8]), NoMemory>
    ensures text { OnOk result (out.new.bytes ≡ out.old.bytes ++ flat_map (quiet_text nodes.now cluster.now.nodes) (lines_above (pieces 10 text.now))) }
    ensures step { IfOk result (λ r. r.0.now ≡ next_step (pieces 10 text.now)) }
    ensures rest { IfOk result (λ r. pieces 10 r.1.now ≡ lines_behind (pieces 10 text.now)) }
{
    let mut rest = text;
    'lines: while let Some((line, more)) = cut(rest, b'\n') {
        if is_played(sort_of(line)) {
            return Ok((line, more));
        }
        put_quiet(out, line, nodes, cluster)?;
        rest = more;
    }
    if is_played(sort_of(rest)) {
        return Ok((rest, b""));
    }
    put_quiet(out, rest, nodes, cluster)?;
    Ok((b"", b""))
}

/// Prints a line that isn't played, and under that of a node what the node tells its records.
fn put_quiet(
    out: &mut Blob,
    line: &[u8],
    nodes: &[Node],
    cluster: &MemoryCluster,
) -> Result<(), NoMemory>
    ensures { OnOk result (out.new.bytes ≡ out.old.bytes ++ quiet_text nodes.now cluster.now.nodes line.now) }
{
    match sort_of(line) {
        Sort::Blank | Sort::Step => Ok(()),
        Sort::Comment => put_comment(out, line),
        Sort::Link => put_step(out, line),
        Sort::Node => {
            put_step(out, line)?;
            put_told(out, words_in(line), nodes, cluster)
        }
    }
}

/// Prints a comment as it is.
fn put_comment(out: &mut Blob, line: &[u8]) -> Result<(), NoMemory>
    ensures { OnOk result (out.new.bytes ≡ out.old.bytes ++ (line.now ++ codes "\n")) }
{
    out.push_all(line)?;
    out.push_all(b"\n")
}

/// Prints a line with one space between its words.
pub(crate) fn put_step(out: &mut Blob, line: &[u8]) -> Result<(), NoMemory>
    ensures { OnOk result (out.new.bytes ≡ out.old.bytes ++ step_line line.now) }
{
    put_joined(out, words_in(line))?;
    out.push_all(b"\n")
}

/// Prints words with one space between them.
fn put_joined(out: &mut Blob, words: Words<'_>) -> Result<(), NoMemory>
    ensures { OnOk result (out.new.bytes ≡ out.old.bytes ++ joined words.entry) }
{
    let mut words = words;
    match words.next() {
        None => Ok(()),
        Some(first) => {
            out.push_all(first)?;
            put_spaced(out, words)
        }
    }
}

/// Prints words, each behind a space.
fn put_spaced(out: &mut Blob, words: Words<'_>) -> Result<(), NoMemory>
    ensures { OnOk result (out.new.bytes ≡ out.old.bytes ++ flat_map spaced words.entry) }
{
    let mut words = words;
    'words: while let Some(word) = words.next() {
        out.push_all(b" ")?;
        out.push_all(word)?;
    }
    Ok(())
}

/// Prints what the node of a line's words tells its records, if they name one.
fn put_told(
    out: &mut Blob,
    words: Words<'_>,
    nodes: &[Node],
    cluster: &MemoryCluster,
) -> Result<(), NoMemory>
    ensures { OnOk result (out.new.bytes ≡ out.old.bytes ++ told_under nodes.now cluster.now.nodes words.entry) }
{
    let mut words = words;
    let Some(_node) = words.next() else {
        return Ok(());
    };
    let Some(name) = words.next() else {
        return Ok(());
    };
    put_facts(out, name, facts_of(nodes, cluster.nodes(), name))
}

/// Prints what the node of this name tells its records.
fn put_facts(out: &mut Blob, name: &[u8], facts: Option<&NodeFacts>) -> Result<(), NoMemory>
    ensures { OnOk result (out.new.bytes ≡ out.old.bytes ++ facts_line name.now (option_copied facts.entry)) }
{
    match facts {
        None => Ok(()),
        Some(facts) => {
            out.push_all(b"  ")?;
            put_node(out, name, facts)
        }
    }
}

/// What the node of this name tells its records.
fn facts_of<'a>(nodes: &[Node], cluster: &'a [MemoryNode], name: &[u8]) -> Option<&'a NodeFacts>
    ensures { option_copied result ≡ facts_of nodes.now cluster.now name.now }
{
    match (nodes.split_first(), cluster.split_first()) {
        (Some((node, nodes)), Some((its, cluster))) => {
            if node.name.as_slice() == name {
                match its.center().records().first() {
                    None => None,
                    Some(record) => Some(record.facts()),
                }
            } else {
                facts_of(nodes, cluster, name)
            }
        }
        _ => None,
    }
}

// The grammar of scripts: a text into a lent node list.
#![tactic(auto)]

ghost use Rattle.std.specs.Prelude.{◌≡◌, ◌≤◌, length, replicate, Ok, Err};
ghost use Rattle.script.specs.declared.node.Node.TheVariants.{Blank};
ghost use Rattle.tokens.specs.Streams.{left};
ghost use Rattle.reading.specs.Firsts.{first_of};
ghost use Rattle.reading.specs.Steps.{signed_by, amount_of, measure_of, plain_of};
ghost use Rattle.reading.specs.Drafts.{node_records, Planted, Ordered};
ghost use Rattle.reading.specs.Readings.{reading_of, Whole, Read};

use atoms::AtomSet;
use automata::Fault;
use conditions::cond;
use labels::{Kind, Order, Verb};
use script::Node;
use tokens::{Mark, Reader, Token};
use words::Word;

mod parser;

use parser::Parser;

// What a step begins with. An enum and no closure: the grammar is stated first token first.
#[derive(Clone, Copy)]
enum First {
    Plain(Leaf),
    If,
    While,
}

// What a step without a block begins with; an enum as `First` is.
#[derive(Clone, Copy)]
enum Leaf {
    Verb(Verb),
    Test,
    Skip,
    Stop,
}

// The first token of a step, with its place.
fn first_token(reader: &mut Reader) -> Result<(usize, First), Fault>
    ensures { elim result [ Ok x ↦ first_of (left reader.old) ≡ Ok (x, left reader.new) | Err f ↦ first_of (left reader.old) ≡ Err f ] }
{
    let token = reader.next()?;
    let first = match token {
        Token::Word {
            word: Word::Verb(verb),
            ..
        } => First::Plain(Leaf::Verb(verb)),
        Token::Word {
            word: Word::Skip,
            ..
        } => First::Plain(Leaf::Skip),
        Token::Word {
            word: Word::Stop,
            ..
        } => First::Plain(Leaf::Stop),
        Token::Word { word: Word::If, .. } => First::If,
        Token::Word {
            word: Word::While,
            ..
        } => First::While,
        Token::Mark {
            mark: Mark::OpenBracket,
            ..
        } => First::Plain(Leaf::Test),
        _ => return Err(Fault::Unexpected(token.place())),
    };
    Ok((token.place(), first))
}

// A number with the sign of its measure. The minus is read before the numbers and stands for both, so it is handed on by itself.
fn signed(value: u8, minus: bool) -> i8
    requires { value ≤ 127 }
    ensures { result ≡ signed_by minus value }
{
    let value = value.cast_signed();
    if minus { -value } else { value }
}

// The measure of an order, after `by` and its minus.
fn amount(reader: &mut Reader, verb: Verb, minus: bool) -> Result<Order, Fault>
    ensures { Ordered (amount_of verb minus (left reader.old)) (left reader.new) result }
{
    let picas = reader.expect_number()?;
    reader.expect_p()?;
    let points = reader.expect_number()?;
    Ok(Order {
        verb,
        picas: signed(picas, minus),
        points: signed(points, minus),
    })
}

// The rest of an order, after its verb. This and `plain` are no methods of the parser: a method would also have to promise
// that the node list stays.
fn order_after(reader: &mut Reader, kind: Kind, verb: Verb) -> Result<Order, Fault>
    ensures { Ordered (measure_of kind verb (left reader.old)) (left reader.new) result }
{
    let Some(place) = reader.accept_by() else {
        return Ok(Order {
            verb,
            picas: 0,
            points: 0,
        });
    };
    if !kind.takes_measure() {
        return Err(Fault::NoMeasure(place));
    }
    let minus = reader.accept(Mark::Minus);
    amount(reader, verb, minus)
}

// The one node of a step without a block.
fn plain(reader: &mut Reader, kind: Kind, levels: u8, leaf: Leaf) -> Result<Node, Fault>
    ensures { Planted (plain_of kind levels leaf (left reader.old)) (left reader.new) result }
{
    match leaf {
        Leaf::Verb(verb) => Ok(Node::Order(order_after(reader, kind, verb)?)),
        Leaf::Test => {
            let set = cond(reader, levels)?;
            reader.expect(Mark::CloseBracket)?;
            Ok(Node::Test(set))
        }
        Leaf::Skip => Ok(Node::Test(AtomSet::all())),
        Leaf::Stop => Ok(Node::Test(AtomSet::empty())),
    }
}

// The most levels that are open at once.
const MOST_LEVELS: u8 = 32;

// A whole text, with its script at the front of the list; how many nodes it takes.
#[tactic(auto, using(crate::proofs::Wholes::script_fails, crate::proofs::Wholes::end_fails, crate::proofs::Wholes::all_read, crate::proofs::Wholes::taken))]
fn whole(kind: Kind, text: &[u8], nodes: &mut [Node]) -> Result<usize, Fault>
    requires { node_records ≤ length nodes.old }
    ensures { Whole (reading_of kind text.now) nodes.new result }
{
    let mut parser = Parser {
        reader: Reader::new(text),
        kind,
        nodes,
        used: 0,
        steps: 0,
    };
    parser.script(MOST_LEVELS)?;
    parser.reader.expect_end()?;
    Ok(parser.used)
}

// Makes every node blank. A loop: the library's `fill` clones the value for each node, and a reading of a short text took 1.6 times as long.
fn blank_out(nodes: &mut [Node])
    ensures { nodes.new ≡ replicate (length nodes.old) Blank }
{
    for node in nodes.iter_mut() {
        *node = Node::Blank;
    }
}

// The fixed length of a node list.
pub const NODE_RECORDS: usize = 1024;

// The most bytes of a text.
pub const MOST_BYTES: usize = 16384;

// Reads a script of a kind into the node list. After it the list holds the script and is blank behind it; after a
// refusal for the text it is all blank, and after one for the lengths it is as before.
// The kind and the text are no struct of their own: each caller has them apart, and would build it for this call alone.
pub fn read(kind: Kind, text: &[u8], nodes: &mut [Node]) -> Result<(), Fault>
    ensures { Read kind text.now nodes.old nodes.new result }
{
    if nodes.len() < NODE_RECORDS {
        return Err(Fault::ShortBuffer);
    }
    if text.len() > MOST_BYTES {
        return Err(Fault::LongText);
    }
    let used = whole(kind, text, nodes);
    blank_out(&mut nodes[used.unwrap_or(0)..]);
    used.map(|_| ())
}

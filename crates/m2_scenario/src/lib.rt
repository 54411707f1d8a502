//! Scenarios: what an operator or a generator says that is to happen, what its text is made of, and the report of what
//! came of it.
//!
//! What it is: [`Scenario`], its [`Node`]s, [`Link`]s and [`Line`]s, and [`Draft`], the scenario so far, whose pushes
//! keep it valid (`specs/Valid.antt` says when it is, within the limits of `limits.rt`). [`generate`] makes a scenario
//! of four nodes and as many posts as are asked for, that a seed determines (`specs/Draws.antt`, `specs/Choices.antt`,
//! `specs/Cluster.antt`, `specs/Generated.antt`). [`report`] makes the lines that tell what each node's dispatchers
//! were called with, as they came or sorted; a law says that a report is read in one way, and [`put_dispatch`] and
//! [`put_reset`] are single lines of it. `specs/Order.antt` has the words of the headline: what a node may dispatch of
//! what its peers posted, said of links, lines and calls of dispatchers alone, so that whoever runs a scenario, in
//! whatever way, is held to the same words.
//!
//! Below the lines stands what any text of lines is made of: [`cut`], a text at a separator; [`words_in`], the
//! [`Words`] of a line; [`read_number`], [`read_bytes`], [`is_name`] and [`read_address`], what single words spell; and
//! [`Kind`], the ways in which a line can be bad, with [`check`] and [`LineFault`], by which the tests of a line are
//! chained with `?`.
//!
//! What it isn't: the reading of a scenario's text (`m2_scenario_text`, by the same pushes), or its run (`m2_cli`).
#![tactic(auto)]

mod address;
mod choices;
mod cluster;
mod counts;
mod draft;
mod draws;
mod generate_laws;
mod generator;
mod kind;
mod limits;
mod line;
mod lines;
mod link;
mod link_table;
mod name;
mod node;
mod node_table;
mod order_laws;
mod plan;
mod post;
mod report_laws;
mod reportable;
mod reports;
mod scenario;
mod text;
mod text_line;
mod word;
mod word_laws;

pub use address::read_address;
pub use counts::Counts;
pub use draft::Draft;
pub use generate_laws::posts_are_as_many_as_asked;
pub use generator::generate;
pub use kind::{Kind, LineFault, check};
pub use limits::{
    MOST_BYTES_BEFORE_CUT, MOST_CENTERS, MOST_CUTS, MOST_FAULTS, MOST_LINKS, MOST_NODES,
    MOST_PAIRS, MOST_PART_BYTES, MOST_POSTS, MOST_ROUNDS, USUAL_LIMIT,
};
pub use line::{Line, LineList};
pub use link::{Link, LinkList};
pub use link_table::cell;
pub use name::Name;
pub use node::{Node, NodeList};
pub use order_laws::{all_is_a_prefix, calls_and_left_are_posts, equal_messages_are_the_same};
pub use post::posted;
pub use report_laws::reports_are_read_in_one_way;
pub use reportable::{logs_are_reportable, nodes_are_named, report_tells_what_was_heard};
pub use reports::{LogsList, put_dispatch, put_reset, report};
pub use scenario::Scenario;
pub use text::{Words, cut};
pub use text_line::{is_clean, prefix, words_in};
pub use word::{MOST_NAME_BYTES, is_name, read_bytes, read_number};
pub use word_laws::numbers_of_kinds_differ;

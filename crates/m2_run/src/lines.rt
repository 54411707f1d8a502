//! What every list of lines keeps, for contracts alone: that it posts messages of their types.

ghost use Rattle.std.specs.List.{All, AllByRecursion};
ghost use Rattle.std.specs.Prelude.{◌<◌};
ghost use Rattle.m2_node.specs.m2_links_go_on.m2_growth.m2_bytes_fit.Posts.{IsOfTypes};
ghost use Rattle.m2_message.specs.HeaderText.{FieldsFit};
ghost use Rattle.m2_run.specs.Joined.{PostsOfTypes};

use m2_message::{Header, Message};
use m2_scenario::Line;

/// What these lines post keeps the ranges of its types.
pub fn lines_post_of_types(lines: &[Line])
    ensures { AllByRecursion PostsOfTypes lines.now }
{
    'lines: for line in lines {
        line_posts_of_types(line);
    }
}

/// So does what one posts.
fn line_posts_of_types(line: &Line)
    ensures { PostsOfTypes line.now }
{
    if let Line::Post { message, .. } = line {
        message_is_of_types(message);
    }
}

/// A message keeps the ranges of its types.
fn message_is_of_types(message: &Message)
    ensures { IsOfTypes message.now }
{
    fields_fit(message.header);
    bytes_fit(message.front.as_slice());
    bytes_fit(message.middle.as_slice());
    bytes_fit(message.tail.as_slice());
}

/// A header's fields do.
fn fields_fit(header: Header)
    ensures { FieldsFit header }
{}

/// Bytes are bytes.
fn bytes_fit(bytes: &[u8])
    ensures { All (λ b. b < 256) bytes.now }
{
    'bytes: for byte in bytes {
        let _byte = *byte;
    }
}

//! What every list of lines keeps, for contracts alone: that it posts messages of their types.

ghost use Rattle.std.specs.Prelude.{◌<◌};
ghost use Rattle.std.specs.List.{All, AllByRecursion};
ghost use Rattle.m2_lives.specs.m2_bytes_fit.Posts.{IsOfTypes};
ghost use Rattle.m2_message.specs.HeaderText.{FieldsFit};
ghost use Rattle.m2_promise.specs.Posted.{PostsOfTypes};

use m2_message::{Header, Message};
use m2_scenario::Line;

/// A header's fields keep the ranges of their types.
fn fields_fit(header: Header)
    ensures { FieldsFit header }
{}

/// Bytes are bytes.
fn bytes_fit(bytes: &[u8])
    ensures { All (λ b. b < 256) bytes.now }
{
    for byte in bytes {
        let _byte = *byte;
    }
}

/// So a message keeps the ranges of its types.
fn message_fits(message: &Message)
    ensures { IsOfTypes message.now }
{
    fields_fit(message.header);
    bytes_fit(message.front.as_slice());
    bytes_fit(message.middle.as_slice());
    bytes_fit(message.tail.as_slice());
}

/// So does what a line posts.
fn line_fits(line: &Line)
    ensures { PostsOfTypes line.now }
{
    if let Line::Post { message, .. } = line {
        message_fits(message);
    }
}

/// What these lines post keeps the ranges of its types.
pub fn lines_fit(lines: &[Line])
    ensures { AllByRecursion PostsOfTypes lines.now }
{
    for line in lines {
        line_fits(line);
    }
}

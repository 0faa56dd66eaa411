//! Line endings, as they are written out.

ghost use Rattle.std.specs.Prelude.{◌≡◌, ◌↔◌, IfErr, codes};
ghost use Rattle.markdown_base.specs.LineEndings.{ending_text};

/// A line ending of CommonMark.
#[derive(Clone, Copy, Debug, PartialEq, Eq)]
pub enum LineEnding {
    /// Carriage return and line feed together, `\r\n`.
    CarriageReturnLineFeed,
    /// Carriage return, `\r`.
    CarriageReturn,
    /// Line feed, `\n`.
    LineFeed,
}

impl Default for LineEnding {
    ghost use Rattle.std.specs.Prelude.{◌≡◌};
    ghost use Rattle.markdown_base.specs.Presets.{default_line_ending};

    ghost is_default = { λ x. x ≡ default_line_ending };

    /// Line feed.
    fn default() -> Self {
        Self::LineFeed
    }
}

impl LineEnding {
    /// The line ending itself: `\r\n`, `\r` or `\n`.
    pub fn as_str(&self) -> &'static str
        ensures { result.now ≡ ending_text self.now }
    {
        match self {
            LineEnding::CarriageReturnLineFeed => "\r\n",
            LineEnding::CarriageReturn => "\r",
            LineEnding::LineFeed => "\n",
        }
    }

    /// The line ending that a text consists of.
    ///
    /// Returns the error `Expected CR, LF, or CRLF` if the text is anything but one line ending.
    pub fn parse(text: &str) -> Result<LineEnding, &'static str>
        ensures accepts { (e : _) → (result ≡ Ok e) ↔ (text.now ≡ ending_text e) }
        ensures refuses { IfErr result (λ why. why.now ≡ codes "Expected CR, LF, or CRLF") }
    {
        match text {
            "\r\n" => Ok(LineEnding::CarriageReturnLineFeed),
            "\r" => Ok(LineEnding::CarriageReturn),
            "\n" => Ok(LineEnding::LineFeed),
            _ => Err("Expected CR, LF, or CRLF"),
        }
    }
}

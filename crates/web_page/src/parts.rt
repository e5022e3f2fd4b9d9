//! The parts of the web page: the page itself, its script, its style and its icon.
ghost use Rattle.std.specs.Prelude.{◌≡◌};
ghost use Rattle.web_page.specs.Parts.{body_of, content_type_of, part_of};

use crate::files::{ICON, PAGE, SCRIPT, STYLE};

/// A part of the web page. The bytes of each part are those of a file in `web/`.
#[derive(Clone, Copy)]
pub enum PagePart {
    /// The web page itself, in HTML.
    Page,
    /// The style sheet of the web page.
    Style,
    /// The script of the web page, which queries the server and fills the page.
    Script,
    Icon,
}

/// Returns the part of the web page with this request target, such as `/page.css`. Targets are
/// compared byte by byte.
pub fn part_of(target: &[u8]) -> Option<PagePart>
    ensures { result ≡ part_of target.now }
{
    if target == b"/".as_slice() {
        Some(PagePart::Page)
    } else if target == b"/page.css".as_slice() {
        Some(PagePart::Style)
    } else if target == b"/page.js".as_slice() {
        Some(PagePart::Script)
    } else if target == b"/icon.svg".as_slice() {
        Some(PagePart::Icon)
    } else {
        None
    }
}

impl PagePart {
    /// Returns the value of the `Content-Type` header for this part of the web page.
    pub fn content_type(self) -> &'static [u8]
        ensures { result.now ≡ content_type_of self }
    {
        match self {
            PagePart::Page => b"text/html; charset=utf-8",
            PagePart::Style => b"text/css; charset=utf-8",
            PagePart::Script => b"text/javascript; charset=utf-8",
            PagePart::Icon => b"image/svg+xml",
        }
    }

    /// Returns the bytes of this part of the web page, which are those of its file in `web/`.
    pub fn body(self) -> &'static [u8]
        ensures { result.now ≡ body_of self }
    {
        match self {
            PagePart::Page => PAGE.as_bytes(),
            PagePart::Style => STYLE.as_bytes(),
            PagePart::Script => SCRIPT.as_bytes(),
            PagePart::Icon => ICON.as_bytes(),
        }
    }
}

//! The HTTP settings.

use codes::Codes;
use origins::Origin;

/// A page, and its policy, which says what the page may do in a browser.
#[derive(Clone, Copy)]
pub struct Page<'a> {
    pub text: &'a str,
    pub policy: &'a str,
}

/// The gate, which requires codes: the codes of the clerks and of the office, the page on which clerks key, and the officer's
/// console, which is served only if the office has a code.
#[derive(Clone, Copy)]
pub struct Gate<'a> {
    pub codes: &'a Codes,
    pub page: Page<'a>,
    pub console: Page<'a>,
}

/// What is shown in public: the title of the election, and the page for the screen in the hall.
#[derive(Clone, Copy)]
pub struct Public<'a> {
    pub title: &'a str,
    pub screen: Page<'a>,
}

/// The origin of pages that come through a proxy, the gate, and what is shown in public, if any.
#[derive(Clone, Copy)]
pub struct HttpSettings<'a> {
    pub origin: Option<Origin<'a>>,
    pub gate: Option<Gate<'a>>,
    pub public: Option<Public<'a>>,
}

/// What is shown to a clerk, to the office or in public, whatever the state of the office.
#[derive(Clone, Copy)]
pub enum FixedPage<'a> {
    /// The keying page, the console, or the page for the screen in the hall.
    Page(Page<'a>),
    /// The clerk or the office is signed out. The browser should forget the code.
    SignedOut,
}

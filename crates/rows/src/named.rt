//! Texts that several rows use.

use corr_text::Text;

/// A text with its name.
#[derive(Drop)]
pub struct Named {
    pub name: Text,
    pub bytes: Text,
}

/// The last text of a name.
pub fn find_text<'a>(texts: &'a [Named], name: &[u8]) -> Option<&'a [u8]> {
    for text in texts.iter().rev() {
        if text.name.bytes() == name {
            return Some(text.bytes.bytes());
        }
    }
    None
}

// Texts made byte by byte, and read.
ghost use Rattle.std.specs.Prelude.{◌≡◌, ◌<◌, [], ◌∷◌, ◌++◌};
ghost use Rattle.reader.specs.Plans.{bytes_of};

use crate::text::Text;

impl Default for Text {
    ghost is_default = { λ t. bytes_of t ≡ [] };

    fn default() -> Text {
        Text {
            bytes: [0; 4],
            len: 0,
        }
    }
}

impl Text {
    pub(crate) fn one(b: u8) -> Text
        ensures { bytes_of result ≡ b ∷ [] }
    {
        Text::default().with(b)
    }

    pub(crate) fn with(self, b: u8) -> Text
        requires { self.len < 4 }
        ensures { bytes_of result ≡ bytes_of self ++ b ∷ [] }
    {
        let mut bytes = self.bytes;
        bytes[self.len] = b;
        Text {
            bytes,
            len: self.len + 1,
        }
    }

    pub(crate) fn as_slice(&self) -> &[u8]
        ensures { result.now ≡ bytes_of self.now }
    {
        &self.bytes[..self.len]
    }
}

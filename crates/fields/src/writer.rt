// Fields written into a lent buffer, one behind the other.
ghost use Rattle.std.specs.Prelude.{◌≡◌, [], ◌∷◌, ◌+◌, ◌<◌, ◌≤◌, length};
ghost use Rattle.limits.specs.Limits.{two_byte_values, field_head};
ghost use Rattle.terms.specs.Base.{number_bytes, field_bytes};
ghost use Rattle.fields.specs.Puts.{tagged};
ghost use Rattle.fields.specs.Adds.{Adds};

// A lent buffer, and the place behind what was written.
#[derive(Drop)]
pub struct Writer<'a> {
    pub out: &'a mut [u8],
    pub at: usize,
}

impl<'a> Writer<'a> {
    // One byte.
    pub fn byte(&mut self, b: u8)
        requires { self.old.at < length self.old.out.now }
        ensures { Adds self.old self.new 1 (b ∷ []) }
    {
        self.out[self.at] = b;
        self.at += 1;
    }

    // All of p.
    pub fn bytes(&mut self, p: &[u8])
        requires { self.old.at + length p.now ≤ length self.old.out.now }
        ensures { Adds self.old self.new (length p.now) p.now }
    {
        super::paste(self.out, self.at, p);
        self.at += p.len();
    }

    // A number in so many bytes, high byte first.
    pub fn number(&mut self, width: usize, n: u32)
        requires { self.old.at + width ≤ length self.old.out.now }
        ensures { Adds self.old self.new width (number_bytes width n) }
    {
        self.at = super::put_number(self.out, self.at, width, n);
    }

    // A field's tag and the length of its contents.
    pub fn head(&mut self, tag: u8, len: usize)
        requires { (self.old.at + field_head ≤ length self.old.out.now) × (len < two_byte_values) }
        ensures { Adds self.old self.new field_head (tag ∷ number_bytes 2 len) }
    {
        self.byte(tag);
        self.number(2, len as u32);
    }

    // A field with these contents.
    pub fn field(&mut self, tag: u8, contents: &[u8])
        requires { (self.old.at + field_head + length contents.now ≤ length self.old.out.now) × (length contents.now < two_byte_values) }
        ensures { Adds self.old self.new (field_head + length contents.now) (field_bytes (tagged tag contents.now)) }
    {
        self.head(tag, contents.len());
        self.bytes(contents);
    }

    // A field that holds a number.
    pub fn number_field(&mut self, tag: u8, width: usize, n: u32)
        requires { (self.old.at + field_head + width ≤ length self.old.out.now) × (width < two_byte_values) }
        ensures { Adds self.old self.new (field_head + width) (field_bytes (tagged tag (number_bytes width n))) }
    {
        self.head(tag, width);
        self.number(width, n);
    }
}

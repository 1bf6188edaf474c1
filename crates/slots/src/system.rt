// The rules that a term is rewritten by: the first `count` pairs of `rules`, over the symbols of `table`.
ghost use Rattle.slots.specs.Slots.{Layout};

#[derive(Clone, Copy)]
pub struct System<'a> {
    pub table: &'a [u8],
    pub rules: &'a [u8],
    pub count: usize,
    pub ghost laid_out: { Layout rules.now count },
}

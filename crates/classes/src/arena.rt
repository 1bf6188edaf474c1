// The arena of terms that its functions read: the nodes, the symbols' table, and of each node its end and the root of its class.
ghost use Rattle.classes.specs.Steps.{Ready};
ghost use Rattle.classes.specs.Unique.{ready_prop};

#[derive(Clone, Copy)]
pub struct Arena<'a> {
    pub nodes: &'a [u8],
    pub table: &'a [u8],
    pub ends: &'a [u16],
    pub class: &'a [u16],
    pub ghost ready: { Ready nodes.now table.now ends.now class.now } by { ready_prop nodes.now table.now ends.now class.now },
}

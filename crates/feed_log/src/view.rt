//! Views of items.
/// What an item is (`docs/MODEL.md`, "An environment alone").
#[derive(Clone, Copy)]
pub enum ItemKind {
    Boot,
    Step,
    Start,
    End,
    Transfer,
    Killed,
    Answer,
    Gained,
    Lost,
    Left,
    Packet,
    Line,
    Asked,
    Taken,
}

/// An item as it is shown: its kind, its first two numbers, each 0 where it has none, and its bytes. Of `specs/Views.antt`
/// the table `item_seen` says which these are.
#[derive(Clone, Copy)]
pub struct ItemView<'a> {
    pub kind: ItemKind,
    pub a: u32,
    pub b: u32,
    pub bytes: &'a [u8],
}

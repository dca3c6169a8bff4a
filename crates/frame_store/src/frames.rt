//! The pages of physical memory, lent of one vector of all bytes.
ghost use Rattle.std.specs.Prelude.{◌≡◌, ◌<◌, ◌≤◌, ◌+◌, ◌*◌, ◌%◌, drop, length, IfOk};
ghost use Rattle.aegis_limits.specs.Limits.{least_pages, most_pages, page_size};
ghost use Rattle.std.specs.Borrow.{sem};
ghost use Rattle.frame_store.specs.Pages.{zero_page, zeroed, page_at, with_page, after_put, word_at, word_bytes};

use aegis_limits::{OutOfMemory, PAGE_BYTES, PAGE_SIZE};
use byteorder::{ByteOrder, LittleEndian};
use std::alloc::Global;
use std::marker::Model;

/// The pages of physical memory, from `LEAST_PAGES` to `MOST_PAGES` of them, numbered from 0. Their bytes stand one behind another.
#[derive(Drop)]
pub struct Frames {
    pages: u32,
    bytes: Vec<u8>,
}

impl Model for Frames {
    ghost use Rattle.std.specs.Prelude.{ℕ, List};
    ghost use Rattle.aegis_limits.specs.Limits.{page_size};
    ghost use Rattle.frame_store.specs.Memory.{IsMemory, pages_of};

    ghost Value = { List (List ℕ) };

    ghost view = { λ f. pages_of page_size f.pages f.bytes.items };

    ghost invariant = { λ f. IsMemory f.pages f.bytes.items };
}

/// Where the page with a number begins in memory.
fn page_start(n: u32) -> usize
    ensures { result ≡ n * page_size }
{
    n as usize * PAGE_SIZE
}

impl Frames {
    ghost use Rattle.frame_store.specs.Lending.{LendsPage};
    ghost use Rattle.frame_store.specs.Memory.{IsOnePage};

    /// So many pages of zeros, from `LEAST_PAGES` to `MOST_PAGES`. An `Err` says that there is no memory for them.
    pub fn new(alloc: Global, pages: u32) -> Result<Frames, OutOfMemory>
        requires enough { least_pages ≤ pages }
        requires within { pages ≤ most_pages }
        ensures { IfOk result (λ f. f ≡ zeroed pages) }
    {
        let bytes = vec![in alloc; 0; pages as usize * PAGE_SIZE]?;
        Ok(Frames { pages, bytes })
    }

    /// How many pages there are, from `LEAST_PAGES` to `MOST_PAGES`.
    pub fn pages(&self) -> u32
        ensures count { result ≡ length self.now }
        ensures least { least_pages ≤ result }
        ensures most { result ≤ most_pages }
    {
        self.pages
    }

    /// The bytes of the page with this number, `PAGE_SIZE` of them.
    pub fn page(&self, n: u32) -> &[u8]
        requires { n < length self.now }
        ensures bytes { result.now ≡ page_at self.now n }
        ensures size { length result.now ≡ page_size }
    {
        let start = page_start(n);
        &self.bytes[start..start + PAGE_SIZE]
    }

    /// The bytes of the page with this number from an address on, whose place in the page is what it is modulo `PAGE_SIZE`.
    #[inline(always)]
    pub fn bytes_from(&self, n: u32, address: u32) -> &[u8]
        requires { n < length self.now }
        ensures bytes { result.now ≡ drop (address % page_size) (page_at self.now n) }
        ensures rest { length result.now + address % page_size ≡ page_size }
    {
        let bytes = self.page(n);
        &bytes[(address % PAGE_BYTES) as usize..]
    }

    /// The bytes of the page with this number, `PAGE_SIZE` of them, to be written. All other pages stay as they are.
    pub fn page_mut(&mut self, n: u32) -> &mut [u8]
        requires { n < length self.old }
        ensures* writes_back { sem 𝓛 (LendsPage self.entry n result) }
        ensures one_page { IsOnePage self.old n }
        ensures bytes { result.now ≡ page_at self.old n }
        ensures size { length result.now ≡ page_size }
    {
        let start = page_start(n);
        self.bytes.slice_mut(start..start + PAGE_SIZE)
    }

    /// Makes every byte of a page 0.
    pub fn zero(&mut self, n: u32)
        requires { n < length self.old }
        ensures { self.new ≡ with_page self.old n zero_page }
    {
        self.page_mut(n).fill(0);
    }

    /// Gives a page the bytes of another, or of itself.
    pub fn copy_page(&mut self, from: u32, to: u32)
        requires from { from < length self.old }
        requires to { to < length self.old }
        ensures { self.new ≡ with_page self.old to (page_at self.old from) }
    {
        let from = page_start(from);
        self.bytes
            .copy_within(from..from + PAGE_SIZE, page_start(to));
    }

    /// Puts bytes into a page from an offset on. They end within the page.
    pub fn put(&mut self, n: u32, offset: u32, bytes: &[u8])
        requires there { n < length self.old }
        requires within { offset + length bytes.now ≤ page_size }
        ensures { self.new ≡ after_put self.old n offset bytes.now }
    {
        let offset = offset as usize;
        self.page_mut(n)[offset..offset + bytes.len()].copy_from_slice(bytes);
    }

    /// The word at an offset in bytes, a multiple of 4 below `PAGE_SIZE`: its lowest byte stands first.
    pub fn word(&self, n: u32, offset: u32) -> u32
        requires there { n < length self.now }
        requires within { offset < page_size }
        requires aligned { offset % 4 ≡ 0 }
        ensures { result ≡ word_at (page_at self.now n) offset }
    {
        LittleEndian::read_u32(&self.page(n)[offset as usize..])
    }

    /// Puts a word at an offset in bytes, a multiple of 4 below `PAGE_SIZE`, its lowest byte first.
    pub fn set_word(&mut self, n: u32, offset: u32, value: u32)
        requires there { n < length self.old }
        requires within { offset < page_size }
        requires aligned { offset % 4 ≡ 0 }
        ensures { self.new ≡ after_put self.old n offset (word_bytes value) }
    {
        self.put(n, offset, &value.to_le_bytes());
    }
}

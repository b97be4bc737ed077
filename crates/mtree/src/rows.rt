// Scripts, and what a race of each writes: a digit that two races may write otherwise stands as `?`.

/// A script with its name, and what a race of it writes.
#[derive(Clone, Copy)]
pub(crate) struct Row {
    pub(crate) name: &'static str,
    pub(crate) script: &'static str,
    pub(crate) text: &'static str,
}

/// Four virtual CPUs write words of their own beside moves of an alias.
const A_RACE: Row = Row {
    name: "a race",
    script: "machine 64K\n\
             region A container 0x10000\n\
             region R ram 0x1000\n\
             region W alias 0x100 R 0\n\
             begin\n\
             space S A\n\
             add A 0 R\n\
             add A 0x8000 W\n\
             commit\n\
             par\n\
             v0 write S 0 1111111111111111\n\
             v1 write S 8 2222222222222222\n\
             v2 write S 0x10 33333333\n\
             v3 write S 0x14 44444444\n\
             move W 0x9000\n\
             move W 0x8000\n\
             end\n\
             v4 read S 0 24\n",
    text: "v0 g? write ok\n\
           v1 g? write ok\n\
           v2 g? write ok\n\
           v3 g? write ok\n\
           v4 g3 read 111111111111111122222222222222223333333344444444 ok\n",
};

/// A virtual CPU that is entered before the block stays in its generation.
const PASS_ENTERED_BEFORE_A_BLOCK: Row = Row {
    name: "pass entered before a block",
    script: "machine 64K\n\
             region A container 0x1000\n\
             region R ram 0x1000\n\
             space S A\n\
             add A 0 R\n\
             v0 enter\n\
             par\n\
             move R 0x800\n\
             end\n\
             v0 read S 0 1\n\
             show S\n",
    text: "v0 enter g2\n\
           v0 g2 read 00 ok\n\
           view S g3\n\
           800-fff R @0 ram\n",
};

/// Two virtual CPUs move one region.
const DESK_LOCK_RUN: Row = Row {
    name: "desk lock run",
    script: "machine 64K\n\
             region A container 0x10000\n\
             region R ram 0x1000\n\
             space S A\n\
             add A 0 R\n\
             par\n\
             v0 do move R 0x2000\n\
             v0 read S 0x2000 1\n\
             v1 do move R 0x2000\n\
             end\n\
             show S\n",
    text: "v0 do g?\n\
           v0 g? read 00 ok\n\
           v1 do g?\n\
           view S g4\n\
           2000-2fff R @0 ram\n",
};

/// A virtual CPU names what is not there.
const DESK_LOCK_UNKNOWN_NAME: Row = Row {
    name: "desk lock unknown name",
    script: "machine 64K\n\
             region A container 0x10000\n\
             region R ram 0x1000\n\
             space S A\n\
             add A 0 R\n\
             par\n\
             v0 do move R 0x2000\n\
             v0 read S 0x2000 1\n\
             v1 do add A 0 Z\n\
             end\n\
             show S\n",
    text: "v0 do g3\n\
           v0 g3 read 00 ok\n\
           refused 9 F1 unknown Z\n\
           view S g3\n\
           2000-2fff R @0 ram\n",
};

/// Copies, to memory and to a device, after which the bytes are read.
const DMA: Row = Row {
    name: "dma",
    script: "machine 64K\n\
             region A container 0x10000\n\
             region R ram 0x2000\n\
             region D io 8 latch\n\
             begin\n\
             space S A\n\
             add A 0 R\n\
             add A 0x8000 D\n\
             commit\n\
             load R 0 0102030405060708090a\n\
             log R vga on\n\
             v0 dma S 0 10 to S 0x1000\n\
             v0 read S 0x1000 10\n\
             dirty R vga\n\
             v0 dma S 0 8 to S 0x8000\n\
             v0 read S 0x8000 8\n\
             v0 dma S 0x1ffe 4 to S 0x1000\n",
    text: "v0 g2 dma ok\n\
           v0 g2 read 0102030405060708090a ok\n\
           dirty R vga 1\n\
           v0 g2 dma ok\n\
           v0 g2 read 0102030405060708 ok\n\
           v0 g2 dma decode\n",
};

/// The same in a block.
const DMA_IN_A_BLOCK: Row = Row {
    name: "dma in a block",
    script: "machine 64K\n\
             region A container 0x10000\n\
             region R ram 0x2000\n\
             region D io 8 latch\n\
             begin\n\
             space S A\n\
             add A 0 R\n\
             add A 0x8000 D\n\
             commit\n\
             load R 0 0102030405060708090a\n\
             log R vga on\n\
             par\n\
             v0 dma S 0 10 to S 0x1000\n\
             v0 read S 0x1000 10\n\
             v0 dma S 0 8 to S 0x8000\n\
             v0 read S 0x8000 8\n\
             v0 dma S 0x1ffe 4 to S 0x1000\n\
             end\n\
             dirty R vga\n",
    text: "v0 g2 dma ok\n\
           v0 g2 read 0102030405060708090a ok\n\
           v0 g2 dma ok\n\
           v0 g2 read 0102030405060708 ok\n\
           v0 g2 dma decode\n\
           dirty R vga 1\n",
};

/// What watchers of an IOMMU region are told.
const IOMMU_NOTICES: Row = Row {
    name: "iommu notices",
    script: "machine 64K\n\
             region M iommu 0x10000\n\
             region R ram 0x1000\n\
             space mem R\n\
             space bus M\n\
             watch W M 0x800 0x2fff\n\
             map M 0 0x1000 mem 0x4000 r\n\
             map M 0x2000 0x1000 mem 0 rw\n\
             unmap M 0\n\
             watch V M 0 0xffff\n\
             unwatch W\n",
    text: "W map 800-fff mem 4800 r\n\
           W map 2000-2fff mem 0 rw\n\
           W unmap 800-fff\n\
           V map 2000-2fff mem 0 rw\n\
           W unmap 2000-2fff\n",
};

/// The same in a block, and in a transaction.
const IOMMU_NOTICES_IN_A_TRANSACTION_IN_A_BLOCK: Row = Row {
    name: "iommu notices in a transaction in a block",
    script: "machine 64K\n\
             region M iommu 0x10000\n\
             region R ram 0x1000\n\
             space mem R\n\
             space bus M\n\
             par\n\
             watch W M 0x800 0x2fff\n\
             map M 0 0x1000 mem 0x4000 r\n\
             map M 0x2000 0x1000 mem 0 rw\n\
             unmap M 0\n\
             watch V M 0 0xffff\n\
             unwatch W\n\
             begin\n\
             unmap M 0x2000\n\
             map M 0x2000 0x1000 mem 0x8000 r\n\
             commit\n\
             watch V M 0 1\n\
             watch U M 2 1\n\
             unwatch W\n\
             end\n",
    text: "W map 800-fff mem 4800 r\n\
           W map 2000-2fff mem 0 rw\n\
           W unmap 800-fff\n\
           V map 2000-2fff mem 0 rw\n\
           W unmap 2000-2fff\n\
           V unmap 2000-2fff\n\
           V map 2000-2fff mem 8000 r\n\
           refused 17 F2 name-taken V\n\
           refused 18 F9 bad-size\n\
           refused 19 F1 unknown W\n",
};

/// A commit for which nothing was begun.
const NESTING: Row = Row {
    name: "nesting",
    script: "machine 64K\n\
             region A container 0x1000\n\
             region D io 0x100 latch\n\
             space S A\n\
             listen L S\n\
             begin\n\
             begin\n\
             add A 0 D\n\
             commit\n\
             commit\n\
             commit\n",
    text: "L begin\n\
           L commit\n\
           L begin\n\
           L add 0-ff D @0 io\n\
           L commit\n\
           refused 11 F12 no-transaction\n",
};

/// Translations through two IOMMU regions, and in an old generation.
const IOMMU_CHAINS: Row = Row {
    name: "iommu chains",
    script: "machine 64K\n\
             region R ram 0x2000\n\
             region M iommu 0x10000\n\
             region N iommu 0x10000\n\
             space mem R\n\
             space bus M\n\
             space dev N\n\
             load R 0x10 a1a2a3a4\n\
             map N 0x1000 0x1000 bus 0x3000 rw\n\
             map M 0x3000 0x1000 mem 0 r\n\
             v0 read dev 0x1010 4\n\
             v0 write dev 0x1010 ff\n\
             map M 0 0x1000 bus 0 rw\n\
             v0 read bus 0 1\n\
             v0 enter\n\
             unmap M 0x3000\n\
             v0 read dev 0x1010 4\n\
             v0 leave\n\
             v0 read dev 0x1010 4\n",
    text: "v0 g5 read a1a2a3a4 ok\n\
           v0 g5 write decode\n\
           v0 g6 read 00 decode\n\
           v0 enter g6\n\
           v0 g6 read a1a2a3a4 ok\n\
           v0 leave\n\
           v0 g7 read 00000000 decode\n",
};

/// A virtual CPU reads memory that was taken away since it entered.
const AN_OLD_GENERATION: Row = Row {
    name: "an old generation",
    script: "machine 64K\n\
             region A container 0x1000\n\
             region R ram 0x1000\n\
             load R 0 2a\n\
             begin\n\
             space S A\n\
             add A 0 R\n\
             commit\n\
             v0 enter\n\
             del A R\n\
             v0 read S 0 1\n\
             v0 leave\n\
             v0 read S 0 1\n",
    text: "v0 enter g1\n\
           v0 g1 read 2a ok\n\
           v0 leave\n\
           v0 g2 read 00 decode\n",
};

/// A publish that a virtual CPU holds up.
const EIGHT_GENERATIONS: Row = Row {
    name: "eight generations",
    script: "machine 64K\n\
             region A container 0x1000\n\
             space S A\n\
             v0 enter\n\
             enable A\n\
             enable A\n\
             enable A\n\
             enable A\n\
             enable A\n\
             enable A\n\
             enable A\n\
             enable A\n\
             v0 leave\n\
             enable A\n\
             show S\n",
    text: "v0 enter g1\n\
           refused 12 F19 held v0 1\n\
           v0 leave\n\
           view S g9\n",
};

/// Memory that is made in a full pool, after a reap.
const A_FULL_POOL: Row = Row {
    name: "a full pool",
    script: "machine 8K\n\
             region A container 0x2000\n\
             region R ram 0x1000\n\
             region F io 8 latch regs 509\n\
             begin\n\
             space S A\n\
             add A 0 R\n\
             commit\n\
             v0 enter\n\
             v0 write S 0 77\n\
             del A R\n\
             drop R\n\
             v0 read S 0 1\n\
             region T ram 0x1000\n\
             reap\n\
             v0 leave\n\
             reap\n\
             region T ram 0x1000\n\
             add A 0 T\n\
             v0 read S 0 1\n",
    text: "v0 enter g1\n\
           v0 g1 write ok\n\
           v0 g1 read 77 ok\n\
           refused 14 F18 no-backing 515\n\
           v0 leave\n\
           released R\n\
           v0 g3 read 00 ok\n",
};

/// All of them.
pub(crate) const ROWS: [Row; 13] = [
    A_RACE,
    PASS_ENTERED_BEFORE_A_BLOCK,
    DESK_LOCK_RUN,
    DESK_LOCK_UNKNOWN_NAME,
    DMA,
    DMA_IN_A_BLOCK,
    IOMMU_NOTICES,
    IOMMU_NOTICES_IN_A_TRANSACTION_IN_A_BLOCK,
    NESTING,
    IOMMU_CHAINS,
    AN_OLD_GENERATION,
    EIGHT_GENERATIONS,
    A_FULL_POOL,
];

/// The first of them, which has a block with five actors.
pub(crate) const RACE: Row = A_RACE;

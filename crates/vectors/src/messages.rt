// Published messages and their hash values.

// A message and its hash value.
pub(crate) struct Message {
    pub(crate) what: &'static str,
    pub(crate) words: &'static [u32],
    pub(crate) hash: [u32; 8],
}

// The empty message, the standard's two examples of whole words, and messages of the validation suites.
pub(crate) const MESSAGES: &[Message] = &[
    Message {
        what: "the empty message",
        words: &[],
        hash: [
            0xe3b0c442, 0x98fc1c14, 0x9afbf4c8, 0x996fb924, 0x27ae41e4, 0x649b934c, 0xa495991b,
            0x7852b855,
        ],
    },
    Message {
        what: "the standard's 14 words",
        words: &[
            0x61626364, 0x62636465, 0x63646566, 0x64656667, 0x65666768, 0x66676869, 0x6768696a,
            0x68696a6b, 0x696a6b6c, 0x6a6b6c6d, 0x6b6c6d6e, 0x6c6d6e6f, 0x6d6e6f70, 0x6e6f7071,
        ],
        hash: [
            0x248d6a61, 0xd20638b8, 0xe5c02693, 0x0c3e6039, 0xa33ce459, 0x64ff2167, 0xf6ecedd4,
            0x19db06c1,
        ],
    },
    Message {
        what: "the standard's 28 words",
        words: &[
            0x61626364, 0x65666768, 0x62636465, 0x66676869, 0x63646566, 0x6768696a, 0x64656667,
            0x68696a6b, 0x65666768, 0x696a6b6c, 0x66676869, 0x6a6b6c6d, 0x6768696a, 0x6b6c6d6e,
            0x68696a6b, 0x6c6d6e6f, 0x696a6b6c, 0x6d6e6f70, 0x6a6b6c6d, 0x6e6f7071, 0x6b6c6d6e,
            0x6f707172, 0x6c6d6e6f, 0x70717273, 0x6d6e6f70, 0x71727374, 0x6e6f7071, 0x72737475,
        ],
        hash: [
            0xcf5b16a7, 0x78af8380, 0x036ce59e, 0x7b049237, 0x0b249b11, 0xe8f07a51, 0xafac4503,
            0x7afee9d1,
        ],
    },
    Message {
        what: "a validation message of 1 word",
        words: &[0x74ba2521],
        hash: [
            0xb16aa56b, 0xe3880d18, 0xcd41e683, 0x84cf1ec8, 0xc17680c4, 0x5a02b157, 0x5dc15189,
            0x23ae8b0e,
        ],
    },
    Message {
        what: "a validation message of 2 words",
        words: &[0x5738c929, 0xc4f4ccb6],
        hash: [
            0x963bb88f, 0x27f51277, 0x7aab6c8b, 0x1a02c70e, 0xc0ad651d, 0x428f8700, 0x36e19171,
            0x20fb48bf,
        ],
    },
    Message {
        what: "a validation message of 3 words",
        words: &[0x9baf69cb, 0xa317f422, 0xfe26a9a0],
        hash: [
            0xfe56287c, 0xd657e4af, 0xc50dba7a, 0x3a54c2a6, 0x324b886b, 0xecdcd1fa, 0xe473b769,
            0xe551a09b,
        ],
    },
    Message {
        what: "a validation message of 4 words",
        words: &[0x0a27847c, 0xdc98bd6f, 0x62220b04, 0x6edd762b],
        hash: [
            0x80c25ec1, 0x600587e7, 0xf28b18b1, 0xb18e3cdc, 0x89928e39, 0xcab3bc25, 0xe4d4a4c1,
            0x39bcedc4,
        ],
    },
    Message {
        what: "a validation message of 5 words",
        words: &[0xc1ef39ce, 0xe58e78f6, 0xfcdc12e0, 0x58b7f902, 0xacd1a93b],
        hash: [
            0x6dd52b0d, 0x8b48cc81, 0x46cebd02, 0x16fbf5f6, 0xef7eeafc, 0x0ff2ff9d, 0x1422d634,
            0x5555a142,
        ],
    },
    Message {
        what: "a validation message of 6 words",
        words: &[
            0x47991301, 0x156d1d97, 0x7c0338ef, 0xbcad4100, 0x4133aefb, 0xca6bcf7e,
        ],
        hash: [
            0xfeeb4b2b, 0x59fec8fd, 0xb1e55194, 0xa493d8c8, 0x71757b57, 0x23675e93, 0xd3ac034b,
            0x380b7fc9,
        ],
    },
    Message {
        what: "a validation message of 7 words",
        words: &[
            0x0777fc1e, 0x1ca47304, 0xc2e26569, 0x2838109e, 0x26aab9e5, 0xc4ae4e86, 0x00df4b1f,
        ],
        hash: [
            0xffb4fc03, 0xe054f8ec, 0xbc31470f, 0xc023bedc, 0xd4a406b9, 0xdd56c71d, 0xa1b660dc,
            0xc4842c65,
        ],
    },
    Message {
        what: "a validation message of 8 words",
        words: &[
            0x09fc1acc, 0xc230a205, 0xe4a208e6, 0x4a8f2042, 0x91f581a1, 0x2756392d, 0xa4b8c0cf,
            0x5ef02b95,
        ],
        hash: [
            0x4f44c1c7, 0xfbebb6f9, 0x601829f3, 0x897bfd65, 0x0c56fa07, 0x844be764, 0x89076356,
            0xac1886a4,
        ],
    },
    Message {
        what: "a validation message of 16 words",
        words: &[
            0x5a86b737, 0xeaea8ee9, 0x76a0a24d, 0xa63e7ed7, 0xeefad18a, 0x101c1211, 0xe2b3650c,
            0x5187c2a8, 0xa6505472, 0x08251f6d, 0x4237e661, 0xc7bf4c77, 0xf3353903, 0x94c37fa1,
            0xa9f9be83, 0x6ac28509,
        ],
        hash: [
            0x42e61e17, 0x4fbb3897, 0xd6dd6cef, 0x3dd2802f, 0xe67b3319, 0x53b06114, 0xa65c7728,
            0x59dfc1aa,
        ],
    },
];

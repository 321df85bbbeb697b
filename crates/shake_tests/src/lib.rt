// Answers of SHAKE256 that another implementation, Python's hashlib, gives too.
// They test the definition that the code is proved against, which no proof can do.
#![tactic(auto)]

#[cfg(test)]
mod tests {
    use shake::shake256;

    fn first_32(text: &[u8]) -> [u8; 32] {
        let mut out = [0; 32];
        shake256(text, &mut out);
        out
    }

    #[test]
    fn of_nothing(rt: HostRuntime) {
        assert_eq!(rt;
            first_32(&[]),
            *b"\x46\xb9\xdd\x2b\x0b\xa8\x8d\x13\x23\x3b\x3f\xeb\x74\x3e\xeb\x24\x3f\xcd\x52\xea\x62\xb8\x1b\x82\xb5\x0c\x27\x64\x6e\xd5\x76\x2f"
        );
    }

    #[test]
    fn of_abc(rt: HostRuntime) {
        assert_eq!(rt;
            first_32(b"abc"),
            *b"\x48\x33\x66\x60\x13\x60\xa8\x77\x1c\x68\x63\x08\x0c\xc4\x11\x4d\x8d\xb4\x45\x30\xf8\xf1\xe1\xee\x4f\x94\xea\x37\xe7\x8b\x57\x39"
        );
    }

    #[test]
    fn of_two_blocks(rt: HostRuntime) {
        assert_eq!(rt;
            first_32(&[0xa3; 200]),
            *b"\xcd\x8a\x92\x0e\xd1\x41\xaa\x04\x07\xa2\x2d\x59\x28\x86\x52\xe9\xd9\xf1\xa7\xee\x0c\x1e\x7c\x1c\xa6\x99\x42\x4d\xa8\x4a\x90\x4d"
        );
    }

    #[test]
    fn of_one_byte_below_a_block(rt: HostRuntime) {
        assert_eq!(rt;
            first_32(&[0xa3; 135]),
            *b"\x36\xac\xdc\x8e\xc0\x9d\xad\x14\x52\x31\x22\x17\x42\x45\xfb\x10\xf2\x97\x99\x8e\xc0\x8d\x52\x4d\x65\xc9\x0f\xe5\x7a\xc0\xd0\x06"
        );
    }

    #[test]
    fn of_a_whole_block(rt: HostRuntime) {
        assert_eq!(rt;
            first_32(&[0xa3; 136]),
            *b"\xed\x6a\x19\xae\xee\xc3\xd8\x0f\x58\x8c\xc9\x5d\x70\x5e\x6c\x32\x44\xa0\x58\x6d\x2b\x15\xfb\x0f\x27\x07\x0f\x30\x02\xe8\x64\xe0"
        );
    }

    #[test]
    fn past_the_first_block_of_output(rt: HostRuntime) {
        let mut out = [0; 160];
        shake256(b"abc", &mut out);
        assert_eq!(rt;
            &out[128..160],
            b"\xe8\xa2\xd7\xec\x71\xa7\xcc\x29\xcf\x0e\xa6\x10\xee\xff\x1a\x58\x82\x90\xa5\x30\x00\xfa\xa7\x99\x32\xbe\xce\xc0\xbd\x3c\xd0\xb3".as_slice()
        );
    }
}

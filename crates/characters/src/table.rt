// The number of each byte's class, two classes to a byte of the table, 128 bytes in all. A row has the 16 bytes that
// end in one hexadecimal digit: its digit d, counted from the right and from 0, is the class of the byte that begins
// with d. So `A`, 0x41, has digit 4 of row 1. Beside a row stand those of its bytes that begin with 2 to 7.
//
// A static, which is read in place: a constant array would be laid out on the stack at each reading.
pub static CLASSES: [u64; 16] = [
    0x4444_4444_3030_2100, // space 0 @ P ` p
    0x4444_4444_3333_2000, // ! 1 A Q a q
    0x4444_4444_3333_2000, // " 2 B R b r
    0x4444_4444_3333_2000, // # 3 C S c s
    0x4444_4444_3333_2000, // $ 4 D T d t
    0x4444_4444_3333_2000, // % 5 E U e u
    0x4444_4444_3333_2000, // & 6 F V f v
    0x4444_4444_3333_2000, // ' 7 G W g w
    0x4444_4444_3333_2000, // ( 8 H X h x
    0x4444_4444_3333_2001, // ) 9 I Y i y
    0x4444_4444_3333_0001, // * : J Z j z
    0x4444_4444_0303_0001, // + ; K [ k {
    0x4444_4444_0303_0001, // , < L \ l |
    0x4444_4444_0303_0001, // - = M ] m }
    0x4444_4444_0303_0000, // . > N ^ n ~
    0x4444_4444_0333_0000, // / ? O _ o delete
];

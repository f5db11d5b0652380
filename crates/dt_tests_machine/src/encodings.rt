// Words of instructions at the limits of their fields, made by vectors/encodings.py with the GNU assembler.

/// A word a line, in hexadecimal, and its instruction.
pub const WORDS: &str = "00000fb3 add x31, x0, x0
000f8033 add x0, x31, x0
01f00033 add x0, x0, x31
40000fb3 sub x31, x0, x0
400f8033 sub x0, x31, x0
41f00033 sub x0, x0, x31
00001fb3 sll x31, x0, x0
000f9033 sll x0, x31, x0
01f01033 sll x0, x0, x31
00002fb3 slt x31, x0, x0
000fa033 slt x0, x31, x0
01f02033 slt x0, x0, x31
00003fb3 sltu x31, x0, x0
000fb033 sltu x0, x31, x0
01f03033 sltu x0, x0, x31
00004fb3 xor x31, x0, x0
000fc033 xor x0, x31, x0
01f04033 xor x0, x0, x31
00005fb3 srl x31, x0, x0
000fd033 srl x0, x31, x0
01f05033 srl x0, x0, x31
40005fb3 sra x31, x0, x0
400fd033 sra x0, x31, x0
41f05033 sra x0, x0, x31
00006fb3 or x31, x0, x0
000fe033 or x0, x31, x0
01f06033 or x0, x0, x31
00007fb3 and x31, x0, x0
000ff033 and x0, x31, x0
01f07033 and x0, x0, x31
02000fb3 mul x31, x0, x0
020f8033 mul x0, x31, x0
03f00033 mul x0, x0, x31
02001fb3 mulh x31, x0, x0
020f9033 mulh x0, x31, x0
03f01033 mulh x0, x0, x31
02002fb3 mulhsu x31, x0, x0
020fa033 mulhsu x0, x31, x0
03f02033 mulhsu x0, x0, x31
02003fb3 mulhu x31, x0, x0
020fb033 mulhu x0, x31, x0
03f03033 mulhu x0, x0, x31
02004fb3 div x31, x0, x0
020fc033 div x0, x31, x0
03f04033 div x0, x0, x31
02005fb3 divu x31, x0, x0
020fd033 divu x0, x31, x0
03f05033 divu x0, x0, x31
02006fb3 rem x31, x0, x0
020fe033 rem x0, x31, x0
03f06033 rem x0, x0, x31
02007fb3 remu x31, x0, x0
020ff033 remu x0, x31, x0
03f07033 remu x0, x0, x31
00000fbb addw x31, x0, x0
000f803b addw x0, x31, x0
01f0003b addw x0, x0, x31
40000fbb subw x31, x0, x0
400f803b subw x0, x31, x0
41f0003b subw x0, x0, x31
00001fbb sllw x31, x0, x0
000f903b sllw x0, x31, x0
01f0103b sllw x0, x0, x31
00005fbb srlw x31, x0, x0
000fd03b srlw x0, x31, x0
01f0503b srlw x0, x0, x31
40005fbb sraw x31, x0, x0
400fd03b sraw x0, x31, x0
41f0503b sraw x0, x0, x31
02000fbb mulw x31, x0, x0
020f803b mulw x0, x31, x0
03f0003b mulw x0, x0, x31
02004fbb divw x31, x0, x0
020fc03b divw x0, x31, x0
03f0403b divw x0, x0, x31
02005fbb divuw x31, x0, x0
020fd03b divuw x0, x31, x0
03f0503b divuw x0, x0, x31
02006fbb remw x31, x0, x0
020fe03b remw x0, x31, x0
03f0603b remw x0, x0, x31
02007fbb remuw x31, x0, x0
020ff03b remuw x0, x31, x0
03f0703b remuw x0, x0, x31
10002faf lr.w x31, (x0)
100fa02f lr.w x0, (x31)
18002faf sc.w x31, x0, (x0)
180fa02f sc.w x0, x0, (x31)
19f0202f sc.w x0, x31, (x0)
08002faf amoswap.w x31, x0, (x0)
080fa02f amoswap.w x0, x0, (x31)
09f0202f amoswap.w x0, x31, (x0)
00002faf amoadd.w x31, x0, (x0)
000fa02f amoadd.w x0, x0, (x31)
01f0202f amoadd.w x0, x31, (x0)
20002faf amoxor.w x31, x0, (x0)
200fa02f amoxor.w x0, x0, (x31)
21f0202f amoxor.w x0, x31, (x0)
60002faf amoand.w x31, x0, (x0)
600fa02f amoand.w x0, x0, (x31)
61f0202f amoand.w x0, x31, (x0)
40002faf amoor.w x31, x0, (x0)
400fa02f amoor.w x0, x0, (x31)
41f0202f amoor.w x0, x31, (x0)
80002faf amomin.w x31, x0, (x0)
800fa02f amomin.w x0, x0, (x31)
81f0202f amomin.w x0, x31, (x0)
a0002faf amomax.w x31, x0, (x0)
a00fa02f amomax.w x0, x0, (x31)
a1f0202f amomax.w x0, x31, (x0)
c0002faf amominu.w x31, x0, (x0)
c00fa02f amominu.w x0, x0, (x31)
c1f0202f amominu.w x0, x31, (x0)
e0002faf amomaxu.w x31, x0, (x0)
e00fa02f amomaxu.w x0, x0, (x31)
e1f0202f amomaxu.w x0, x31, (x0)
10003faf lr.d x31, (x0)
100fb02f lr.d x0, (x31)
18003faf sc.d x31, x0, (x0)
180fb02f sc.d x0, x0, (x31)
19f0302f sc.d x0, x31, (x0)
08003faf amoswap.d x31, x0, (x0)
080fb02f amoswap.d x0, x0, (x31)
09f0302f amoswap.d x0, x31, (x0)
00003faf amoadd.d x31, x0, (x0)
000fb02f amoadd.d x0, x0, (x31)
01f0302f amoadd.d x0, x31, (x0)
20003faf amoxor.d x31, x0, (x0)
200fb02f amoxor.d x0, x0, (x31)
21f0302f amoxor.d x0, x31, (x0)
60003faf amoand.d x31, x0, (x0)
600fb02f amoand.d x0, x0, (x31)
61f0302f amoand.d x0, x31, (x0)
40003faf amoor.d x31, x0, (x0)
400fb02f amoor.d x0, x0, (x31)
41f0302f amoor.d x0, x31, (x0)
80003faf amomin.d x31, x0, (x0)
800fb02f amomin.d x0, x0, (x31)
81f0302f amomin.d x0, x31, (x0)
a0003faf amomax.d x31, x0, (x0)
a00fb02f amomax.d x0, x0, (x31)
a1f0302f amomax.d x0, x31, (x0)
c0003faf amominu.d x31, x0, (x0)
c00fb02f amominu.d x0, x0, (x31)
c1f0302f amominu.d x0, x31, (x0)
e0003faf amomaxu.d x31, x0, (x0)
e00fb02f amomaxu.d x0, x0, (x31)
e1f0302f amomaxu.d x0, x31, (x0)
80000f93 addi x31, x0, -2048
7fff8013 addi x0, x31, 2047
80002f93 slti x31, x0, -2048
7fffa013 slti x0, x31, 2047
80003f93 sltiu x31, x0, -2048
7fffb013 sltiu x0, x31, 2047
80004f93 xori x31, x0, -2048
7fffc013 xori x0, x31, 2047
80006f93 ori x31, x0, -2048
7fffe013 ori x0, x31, 2047
80007f93 andi x31, x0, -2048
7ffff013 andi x0, x31, 2047
80000f9b addiw x31, x0, -2048
7fff801b addiw x0, x31, 2047
00001f93 slli x31, x0, 0
03ff9013 slli x0, x31, 63
00005f93 srli x31, x0, 0
03ffd013 srli x0, x31, 63
40005f93 srai x31, x0, 0
43ffd013 srai x0, x31, 63
00001f9b slliw x31, x0, 0
01ff901b slliw x0, x31, 31
00005f9b srliw x31, x0, 0
01ffd01b srliw x0, x31, 31
40005f9b sraiw x31, x0, 0
41ffd01b sraiw x0, x31, 31
80000f83 lb x31, -2048(x0)
7fff8003 lb x0, 2047(x31)
80001f83 lh x31, -2048(x0)
7fff9003 lh x0, 2047(x31)
80002f83 lw x31, -2048(x0)
7fffa003 lw x0, 2047(x31)
80003f83 ld x31, -2048(x0)
7fffb003 ld x0, 2047(x31)
80004f83 lbu x31, -2048(x0)
7fffc003 lbu x0, 2047(x31)
80005f83 lhu x31, -2048(x0)
7fffd003 lhu x0, 2047(x31)
80006f83 lwu x31, -2048(x0)
7fffe003 lwu x0, 2047(x31)
80000fe7 jalr x31, -2048(x0)
7fff8067 jalr x0, 2047(x31)
800f8023 sb x0, -2048(x31)
7ff00fa3 sb x31, 2047(x0)
800f9023 sh x0, -2048(x31)
7ff01fa3 sh x31, 2047(x0)
800fa023 sw x0, -2048(x31)
7ff02fa3 sw x31, 2047(x0)
800fb023 sd x0, -2048(x31)
7ff03fa3 sd x31, 2047(x0)
800f8063 beq x31, x0, .-4096
7ff00fe3 beq x0, x31, .+4094
800f9063 bne x31, x0, .-4096
7ff01fe3 bne x0, x31, .+4094
800fc063 blt x31, x0, .-4096
7ff04fe3 blt x0, x31, .+4094
800fd063 bge x31, x0, .-4096
7ff05fe3 bge x0, x31, .+4094
800fe063 bltu x31, x0, .-4096
7ff06fe3 bltu x0, x31, .+4094
800ff063 bgeu x31, x0, .-4096
7ff07fe3 bgeu x0, x31, .+4094
80000fb7 lui x31, 524288
7ffff037 lui x0, 524287
80000f97 auipc x31, 524288
7ffff017 auipc x0, 524287
80000fef jal x31, .-1048576
7ffff06f jal x0, .+1048574
00000073 ecall
00100073 ebreak
c0002ff3 csrrs x31, 0xc00, x0
c0102073 csrrs x0, 0xc01, x0
c02020f3 csrrs x1, 0xc02, x0";
